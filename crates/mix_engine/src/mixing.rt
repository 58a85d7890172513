//! The mixer as it stands: one step is one action, and all of the state is here.
ghost use Rattle.std.specs.Prelude.{◌≡◌, [], length};
ghost use Rattle.mix_engine.specs.Answers.{is_due};
ghost use Rattle.mix_engine.specs.Mixings.{IsMixing};
ghost use Rattle.mix_engine.specs.Numbers.{NumbersWithin};
ghost use Rattle.mix_engine.specs.Step.{outcome};
ghost use Rattle.mix_engine.specs.StepAnswers.{IsUntold, Stepped, Steps};

use crate::step_answer::silent;
use crate::{Heading, StepAnswer};
use mix_audience::Audience;
use mix_base::{ConnId, NoMemory, Rate};
use mix_json::JsonReader;
use mix_model::{Action, Notes};
use mix_studio::Studio;
use std::alloc::Global;
use std::marker::Model;

/// The mixer as it stands. Contracts see its whole state, and the open connections with the events
/// that wait for each.
#[derive(Drop)]
pub struct Mixing {
    pub(crate) studio: Studio,
    pub(crate) notes: Notes,
    pub(crate) audience: Audience,
    pub(crate) next_conn: u32,
    /// The room that reading a message takes.
    pub(crate) reader: JsonReader,
}

impl Model for Mixing {
    ghost use Rattle.mix_base.specs.contracts.json.Json as json_contracts;
    ghost use Rattle.std.specs.Coded.{codes};
    ghost use Rattle.mix_engine.specs.Mixings.{Mixed, mixed_of, IsMixing};

    ghost Value = { Mixed };

    ghost coded = { Prim.hlevel (codes, json_contracts.the_row.coded) };

    ghost view = { λ m. mixed_of m.studio.present m.notes m.audience m.next_conn };

    ghost invariant = { λ m. IsMixing (mixed_of m.studio.present m.notes m.audience m.next_conn) };
}

impl Mixing {
    ghost use Rattle.mix_engine.specs.Outcomes.{only};

    /// Does one action. All memory is taken before anything is changed.
    pub fn act(&mut self, alloc: Global, action: &Action) -> Result<StepAnswer, NoMemory>
        requires numbers { NumbersWithin 4294967294 self.old.mixer }
        ensures steps { Steps result self.old self.new (outcome self.old.mixer action.now) }
    {
        match action {
            Action::Arrive { challenge } => self.arrive(alloc, challenge),
            Action::Hear { conn, message } => self.hear(alloc, *conn, message),
            Action::Poll { conn } => self.poll(alloc, *conn),
            Action::BatchNext { conn } => self.go_on(alloc, *conn),
            Action::Leave { conn } => self.leave(alloc, *conn),
            Action::VideoTick => self.tick(alloc),
            Action::FrameDone { number } => Ok(self.give_back(alloc, *number)),
            Action::AudioTick | Action::Destroy => Ok(silent(alloc, Heading::NotBuilt)),
        }
    }

    /// The state has its shape, between any two calls. It does nothing.
    pub fn has_shape(&self)
        ensures shape { IsMixing self.now }
    {
        let _ = self.audience.len();
    }

    /// How many rows die.
    pub fn dying(&self) -> u32
        ensures value { result ≡ length self.now.mixer.studio.graph.dying }
    {
        self.studio.graph().dying()
    }

    /// Width and height of the picture in pixels.
    pub fn canvas(&self) -> (u32, u32)
        ensures value { result ≡ self.now.mixer.studio.canvas }
    {
        self.studio.canvas()
    }

    /// The rate of frames.
    pub fn rate(&self) -> Rate
        ensures value { result ≡ self.now.mixer.studio.rate }
    {
        self.studio.rate()
    }

    /// Whether a stop was asked for.
    pub fn stopping(&self) -> bool
        ensures value { result ≡ self.now.mixer.notes.stop }
    {
        self.notes.stop
    }

    /// Whether the next request of the connection's oldest batch is due: so far no batch is pending.
    pub fn due(&self, conn: ConnId) -> bool
        ensures value { result ≡ is_due self.now.mixer conn }
    {
        self.has_shape();
        let _ = conn;
        false
    }

    /// An answer that changes nothing and tells nothing.
    pub(crate) fn rest(&mut self, alloc: Global, heading: Heading) -> StepAnswer
        requires untold { IsUntold heading }
        ensures steps { Stepped self.old self.new result (only self.old.mixer heading []) }
    {
        let answer = silent(alloc, heading);
        self.audience.end(answer.heading.actor());
        answer
    }
}
