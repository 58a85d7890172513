//! A request of its own in a message.
ghost use Rattle.std.specs.Prelude.{◌≡◌, IsTrue, is_some, true};
ghost use Rattle.mix_audience.specs.Listeners.{listener_at};
ghost use Rattle.mix_engine.specs.Numbers.{NumbersWithin};
ghost use Rattle.mix_engine.specs.StepAnswers.{Steps};

use crate::laws::requests_are_proper;
use crate::requests::{do_request, most_events, named_by};
use crate::step_answer::{saying, silent};
use crate::{Heading, Mixing, StepAnswer};
use mix_base::{ConnId, NoMemory};
use mix_events::Said;
use mix_model::{Ask, Done};
use mix_requests::Events;
use std::alloc::Global;

impl Mixing {
    ghost use Rattle.mix_engine.specs.Requests.{answers};

    /// A connection asks for one request. The room of all that is told is taken first.
    pub(crate) fn ask(
        &mut self,
        alloc: Global,
        conn: ConnId,
        ask: Ask,
    ) -> Result<StepAnswer, NoMemory>
        requires numbers { NumbersWithin 4294967294 self.old.mixer }
        requires id { IsTrue (is_some ask.id) }
        requires is_there { is_some (listener_at conn self.old.listeners) ≡ true }
        ensures steps { Steps result self.old self.new (answers self.old.mixer conn ask) }
    {
        requests_are_proper();
        let request = named_by(&ask);
        let most = most_events(request);
        let Ok(mut said) = self.audience.waiting(alloc, conn, most + 1) else {
            drop(ask);
            return Err(NoMemory);
        };
        let Ok(()) = self.audience.reserve(most) else {
            drop(ask);
            drop(said);
            return Err(NoMemory);
        };
        let mut events = Events::new(alloc);
        self.studio.begin_changes();
        let done = do_request(
            alloc,
            &mut self.studio,
            &mut self.notes,
            conn,
            request,
            ask,
            &mut events,
        );
        match done {
            Err(_) => {
                drop(said);
                drop(events);
                Err(NoMemory)
            }
            Ok(None) => {
                drop(said);
                drop(events);
                Ok(silent(alloc, Heading::NotBuilt))
            }
            Ok(Some(done)) => {
                let twins = events.into_twins();
                self.audience.tell(conn, twins, &mut said);
                said.push_reserved(Said::Response(done));
                self.audience.end(Some(conn));
                Ok(saying(Heading::Told { conn }, said))
            }
        }
    }
}
