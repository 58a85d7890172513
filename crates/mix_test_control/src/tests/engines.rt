//! An engine with one scene, and what its actions are answered.
ghost use Rattle.std.specs.Prelude.{◌≤◌};
ghost use Rattle.mix_model.specs.Fitting.{IsFitting};

use crate::tests::have::have;
use mix_base::{Bytes32, ConnId, Limits, ListOf, Name, PassNo, Rate, Text};
use mix_engine::{Engine, Setup};
use mix_events::{Answer, Reply, Said};
use mix_model::{Action, Collection, Line, Message};
use std::alloc::Global;
use std::process::Abort;

pub const ONE: ConnId = ConnId(1);

pub const FROM: PassNo = PassNo { pass: 0, number: 0 };

pub const ARRIVE: Action = Action::Arrive {
    challenge: Bytes32([0; 32]),
};

/// A collection with the scene A on program.
#[tactic(auto, unfolding(mix_model::specs::Values::is_canvas, mix_model::specs::Values::is_format, mix_model::specs::Fitting::line_fits))]
fn one_scene(rt: &impl Abort, alloc: Global) -> Collection
    ensures { IsFitting result }
{
    let name = have(rt, Name::read(b"A"));
    let mut lines = Vec::new(alloc);
    have(rt, lines.push(Line::Scene { name: name.share() }));
    Collection {
        canvas: (64, 36),
        rate: Rate { num: 60, den: 1 },
        i420: true,
        tracks: 3,
        secret: None,
        lines: ListOf::from_vec(lines),
        fade: false,
        ms: 300,
        studio: None,
        program: name,
    }
}

/// An engine with the scene A on program, whose history may have so many actions.
pub fn engine(rt: &impl Abort, alloc: Global, turns: u64) -> Engine
    requires { turns ≤ 16777216 }
{
    let mut limits = Limits::standard();
    limits.turns = turns;
    let collection = one_scene(rt, alloc);
    match have(rt, Engine::open(alloc, Setup { collection, limits })) {
        Some(engine) => engine,
        None => panic!(rt; "the collection isn't opened"),
    }
}

/// A text comes from connection 1.
pub fn text(rt: &impl Abort, alloc: Global, text: &str) -> Action {
    Action::Hear {
        conn: ONE,
        message: Message::Text(have(rt, Text::from_str(alloc, text))),
    }
}

/// The status of a response, and else the op of the one text that connection 1 is told.
fn told(answer: &Answer) -> u16 {
    let Reply::Told {
        conn: ConnId(1),
        said,
        close: None,
        due: false,
    } = &answer.reply
    else {
        return 0;
    };
    match said.as_slice() {
        [Said::Hello { login: None }] => 1,
        [Said::Identified] => 2,
        [Said::Response(done)] => done.status,
        _ => 0,
    }
}

/// An action is done, this is told, and nothing dies.
pub fn expect(rt: &impl Abort, alloc: Global, engine: &mut Engine, action: Action, wanted: u16) {
    let Some(answer) = have(rt, engine.act(alloc, FROM, action)) else {
        panic!(rt; "an action isn't built")
    };
    let (told, dying) = (told(&answer), answer.dying);
    drop(answer);
    assert!(rt; told == wanted, "told {told}");
    assert!(rt; dying == 0);
}

/// So many actions are in the history.
pub fn expect_journal(rt: &impl Abort, engine: &Engine, wanted: usize) {
    assert!(rt; engine.journal().len() == wanted);
}
