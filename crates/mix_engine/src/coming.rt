//! Connections that come, and that ask for what waits for them.
ghost use Rattle.std.specs.Prelude.{◌≡◌, [], is_some, true};
ghost use Rattle.mix_audience.specs.Listeners.{listener_at};
ghost use Rattle.mix_engine.specs.Numbers.{NumbersWithin};
ghost use Rattle.mix_engine.specs.Step.{outcome};
ghost use Rattle.mix_engine.specs.StepAnswers.{Steps, StepsWithout};

use crate::step_answer::saying;
use crate::{Heading, Mixing, StepAnswer};
use mix_base::{Bytes32, ConnId, NoMemory};
use std::alloc::Global;

/// The most connections that may be open.
const MOST_CONNS: usize = 64;

/// The code that a connection is closed with that was cut (obs-websocket 5, session invalidated).
const SESSION_INVALIDATED: u16 = 4011;

impl Mixing {
    ghost use Rattle.mix_engine.specs.Outcomes.{only};
    ghost use Rattle.mix_model.specs.declared.action.Action.TheVariants as action;
    ghost use Rattle.mix_engine.specs.declared.heading.Heading.TheVariants as heading;

    /// A connection comes.
    pub(crate) fn arrive(
        &mut self,
        alloc: Global,
        challenge: &Bytes32,
    ) -> Result<StepAnswer, NoMemory>
        requires numbers { NumbersWithin 4294967294 self.old.mixer }
        ensures steps { Steps result self.old self.new
            (outcome self.old.mixer (action.Arrive challenge.now)) }
    {
        if self.audience.len() >= MOST_CONNS {
            return Ok(self.rest(alloc, Heading::Full));
        }
        let conn = ConnId(self.next_conn);
        let mut said = Vec::with_capacity(alloc, 1)?;
        let Ok(hello) = self.audience.join(alloc, conn, challenge) else {
            drop(said);
            return Err(NoMemory);
        };
        said.push_reserved(hello);
        self.audience.end(Some(conn));
        self.next_conn += 1;
        Ok(saying(Heading::Told { conn }, said))
    }

    /// A connection asks for what waits for it.
    pub(crate) fn poll(&mut self, alloc: Global, conn: ConnId) -> Result<StepAnswer, NoMemory>
        ensures steps { Steps result self.old self.new
            (outcome self.old.mixer (action.Poll conn)) }
    {
        self.has_shape();
        match self.turn_away(alloc, conn)? {
            Some(answer) => Ok(answer),
            None => self.tell_waiting(alloc, conn),
        }
    }

    /// The next request of a connection's oldest batch is to be done, if it is due: so far no batch is
    /// pending, so that the connection is told what waits for it.
    pub(crate) fn go_on(&mut self, alloc: Global, conn: ConnId) -> Result<StepAnswer, NoMemory>
        ensures steps { Steps result self.old self.new
            (outcome self.old.mixer (action.BatchNext conn)) }
    {
        self.has_shape();
        self.poll(alloc, conn)
    }

    /// A connection that isn't open is told so, and one that is cut is closed. Of any other nothing is
    /// done yet.
    pub(crate) fn turn_away(
        &mut self,
        alloc: Global,
        conn: ConnId,
    ) -> Result<Option<StepAnswer>, NoMemory>
        ensures steps { StepsWithout result self.old self.new conn }
    {
        match self.audience.is_cut(conn) {
            None => Ok(Some(self.rest(alloc, Heading::Gone { conn }))),
            Some(true) => Ok(Some(self.close(alloc, conn, SESSION_INVALIDATED)?)),
            Some(false) => Ok(None),
        }
    }

    /// An open connection is told what waits for it.
    fn tell_waiting(&mut self, alloc: Global, conn: ConnId) -> Result<StepAnswer, NoMemory>
        requires is_there { is_some (listener_at conn self.old.listeners) ≡ true }
        ensures steps { Steps result self.old self.new
            (only self.old.mixer (heading.Told conn) []) }
    {
        let said = self.audience.waiting(alloc, conn, 0)?;
        self.audience.end(Some(conn));
        Ok(saying(Heading::Told { conn }, said))
    }
}
