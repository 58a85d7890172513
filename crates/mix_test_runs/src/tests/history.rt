//! A history that has no room for one more action.
ghost use Rattle.std.specs.Prelude.{◌≤◌};

use mix_base::{Bytes32, Limits, ListOf, Name, PassNo, Rate};
use mix_engine::{ActFault, Engine, Full, Setup};
use mix_model::{Action, Collection, Line};
use std::alloc::Global;
use std::test::Fail;

/// An arrival with a challenge of zeros.
const ARRIVE: Action = Action::Arrive {
    challenge: Bytes32([0; 32]),
};

/// Where each action comes from.
const FROM: PassNo = PassNo { pass: 0, number: 0 };

fn name() -> Result<Name, Fail> {
    match Name::read(b"A") {
        Ok(name) => Ok(name),
        Err(_) => Err(Fail::new("A is no name")),
    }
}

/// An engine with the first collection, whose history may have so many actions.
#[tactic(auto, unfolding(mix_model::specs::Values::is_canvas, mix_model::specs::Values::is_format, mix_model::specs::Fitting::line_fits))]
fn engine(alloc: Global, turns: u64) -> Result<Engine, Fail>
    requires { turns ≤ 16777216 }
{
    let mut lines = Vec::new(alloc);
    lines.push(Line::Scene { name: name()? })?;
    let collection = Collection {
        canvas: (2, 1),
        rate: Rate { num: 30, den: 1 },
        i420: false,
        tracks: 1,
        secret: None,
        lines: ListOf::from_vec(lines),
        fade: false,
        ms: 300,
        studio: None,
        program: name()?,
    };
    let mut limits = Limits::standard();
    limits.turns = turns;
    match Engine::open(alloc, Setup { collection, limits }) {
        Ok(Some(engine)) => Ok(engine),
        Ok(None) => Err(Fail::new("the collection isn't opened")),
        Err(_) => Err(Fail::new("no memory")),
    }
}

/// Does an action, for which there is room.
fn act(engine: &mut Engine, alloc: Global, action: Action) -> Result<(), Fail> {
    match engine.act(alloc, FROM, action) {
        Ok(Some(reply)) => {
            drop(reply);
            Ok(())
        }
        Ok(None) => Err(Fail::new("the action isn't built")),
        Err(_) => Err(Fail::new("there is no room")),
    }
}

/// Whether an action is refused for a history with these numbers.
fn is_refused(engine: &mut Engine, alloc: Global, action: Action) -> bool {
    match engine.act(alloc, FROM, action) {
        Err(ActFault::HistoryFull { turns: 3, bytes: 8 }) => true,
        Err(_) => false,
        Ok(reply) => {
            drop(reply);
            false
        }
    }
}

/// Whether a history was full first with three actions of 8 bytes, for a line of 2.
fn is_full(engine: &Engine) -> bool {
    let first = engine.full();
    matches!(
        first,
        Some(Full {
            turns: 3,
            bytes: 8,
            line: 2
        })
    ) && engine.journal().len() == 3
}

/// Three actions have room, and a fourth has none.
fn expect_full(engine: &mut Engine, alloc: Global) -> Result<(), Fail> {
    act(engine, alloc, ARRIVE)?;
    act(engine, alloc, Action::VideoTick)?;
    act(engine, alloc, Action::FrameDone { number: 0 })?;
    if engine.full().is_some() {
        return Err(Fail::new("the history is full too early"));
    }
    if is_refused(engine, alloc, Action::VideoTick) && is_full(engine) {
        Ok(())
    } else {
        Err(Fail::new("the history isn't full"))
    }
}

/// The lines of three actions have 2, 2 and 4 bytes, and that of the fourth has 2.
#[test]
fn history_full(rt: HostRuntime) -> Result<(), Fail> {
    let alloc = rt.alloc();
    let mut engine = engine(alloc, 3)?;
    let result = expect_full(&mut engine, alloc);
    drop(engine);
    result
}
