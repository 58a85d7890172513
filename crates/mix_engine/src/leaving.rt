//! Connections that go, and that are closed.
ghost use Rattle.std.specs.Prelude.{◌≡◌, is_some, true};
ghost use Rattle.mix_audience.specs.Listeners.{listener_at};
ghost use Rattle.mix_engine.specs.Step.{outcome};
ghost use Rattle.mix_engine.specs.StepAnswers.{Steps};

use crate::letting_go::let_go_all;
use crate::step_answer::{saying, silent};
use crate::{Heading, Mixing, StepAnswer};
use mix_base::{ConnId, NoMemory};
use std::alloc::Global;

impl Mixing {
    ghost use Rattle.mix_engine.specs.Leaving.{goes};
    ghost use Rattle.mix_model.specs.declared.action.Action.TheVariants as action;
    ghost use Rattle.mix_engine.specs.declared.heading.Heading.TheVariants as heading;

    /// A connection goes.
    pub(crate) fn leave(&mut self, alloc: Global, conn: ConnId) -> Result<StepAnswer, NoMemory>
        ensures steps { Steps result self.old self.new
            (outcome self.old.mixer (action.Leave conn)) }
    {
        self.has_shape();
        match self.turn_away(alloc, conn)? {
            Some(answer) => Ok(answer),
            None => self.depart(alloc, conn),
        }
    }

    /// An open connection goes, with what it held and watched.
    fn depart(&mut self, alloc: Global, conn: ConnId) -> Result<StepAnswer, NoMemory>
        requires is_there { is_some (listener_at conn self.old.listeners) ≡ true }
        ensures steps { Steps result self.old self.new
            (goes self.old.mixer conn (heading.Left conn)) }
    {
        let_go_all(alloc, &mut self.studio, &mut self.notes, conn)?;
        self.audience.leave(conn);
        self.audience.end(Some(conn));
        Ok(silent(alloc, Heading::Left { conn }))
    }

    /// An open connection is told what waits for it, and closed with a code: it goes with what it held
    /// and watched.
    pub(crate) fn close(
        &mut self,
        alloc: Global,
        conn: ConnId,
        code: u16,
    ) -> Result<StepAnswer, NoMemory>
        requires is_there { is_some (listener_at conn self.old.listeners) ≡ true }
        ensures steps { Steps result self.old self.new
            (goes self.old.mixer conn (heading.Closed conn code)) }
    {
        let said = self.audience.waiting(alloc, conn, 0)?;
        let Ok(()) = let_go_all(alloc, &mut self.studio, &mut self.notes, conn) else {
            drop(said);
            return Err(NoMemory);
        };
        self.audience.leave(conn);
        self.audience.end(Some(conn));
        Ok(saying(Heading::Closed { conn, code }, said))
    }
}
