//! What connections say.
ghost use Rattle.std.specs.Prelude.{◌≡◌, is_some, true};
ghost use Rattle.mix_audience.specs.Listeners.{listener_at};
ghost use Rattle.mix_events.specs.Sayings.{IsSayable};
ghost use Rattle.mix_engine.specs.Numbers.{NumbersWithin};
ghost use Rattle.mix_engine.specs.Step.{heard_from, is_deaf, outcome};
ghost use Rattle.mix_engine.specs.StepAnswers.{IsOpen, IsPlain, Steps};

use crate::step_answer::{saying, silent};
use crate::{Heading, Mixing, StepAnswer};
use mix_base::{ConnId, NoMemory};
use mix_events::Said;
use mix_model::Message;
use mix_session::Heard;
use std::alloc::Global;

impl Mixing {
    ghost use Rattle.mix_model.specs.declared.action.Action.TheVariants as action;
    ghost use Rattle.mix_session.specs.declared.heard.Heard.TheVariants as heard;

    /// A connection says something.
    pub(crate) fn hear(
        &mut self,
        alloc: Global,
        conn: ConnId,
        message: &Message,
    ) -> Result<StepAnswer, NoMemory>
        requires numbers { NumbersWithin 4294967294 self.old.mixer }
        ensures steps { Steps result self.old self.new
            (outcome self.old.mixer (action.Hear conn message.now)) }
    {
        match self.turn_away(alloc, conn)? {
            Some(answer) => Ok(answer),
            None => self.hear_open(alloc, conn, message),
        }
    }

    /// An open connection says something.
    fn hear_open(
        &mut self,
        alloc: Global,
        conn: ConnId,
        message: &Message,
    ) -> Result<StepAnswer, NoMemory>
        requires numbers { NumbersWithin 4294967294 self.old.mixer }
        requires open { IsOpen self.old conn }
        ensures steps { Steps result self.old self.new
            (outcome self.old.mixer (action.Hear conn message.now)) }
    {
        match self.audience.hear(alloc, &mut self.reader, conn, message)? {
            None => unreachable!(),
            Some(heard) => self.do_heard(alloc, conn, heard),
        }
    }

    /// What an open connection said is done.
    fn do_heard(
        &mut self,
        alloc: Global,
        conn: ConnId,
        heard: Heard,
    ) -> Result<StepAnswer, NoMemory>
        requires numbers { NumbersWithin 4294967294 self.old.mixer }
        requires plain { IsPlain heard }
        requires is_there { is_some (listener_at conn self.old.listeners) ≡ true }
        ensures steps { Steps result self.old self.new (heard_from self.old.mixer conn heard) }
    {
        match heard {
            Heard::Say { said, mask } => self.say(alloc, conn, said, mask),
            Heard::Ask(ask) => self.ask(alloc, conn, ask),
            Heard::Batch(batch) => {
                drop(batch);
                Ok(silent(alloc, Heading::NotBuilt))
            }
            Heard::Close(code) => self.close(alloc, conn, code),
        }
    }

    /// A connection is answered at once, and enters the mask that it named: so far one without the
    /// events of activity.
    fn say(
        &mut self,
        alloc: Global,
        conn: ConnId,
        said: Said,
        mask: u32,
    ) -> Result<StepAnswer, NoMemory>
        requires said { IsSayable said }
        requires is_there { is_some (listener_at conn self.old.listeners) ≡ true }
        ensures steps { Steps result self.old self.new
            (heard_from self.old.mixer conn (heard.Say said mask)) }
    {
        if !is_deaf(mask) {
            drop(said);
            return Ok(silent(alloc, Heading::NotBuilt));
        }
        let Ok(mut all) = self.audience.waiting(alloc, conn, 1) else {
            drop(said);
            return Err(NoMemory);
        };
        all.push_reserved(said);
        self.audience.identify(conn, mask);
        self.audience.end(Some(conn));
        Ok(saying(Heading::Told { conn }, all))
    }
}

/// Whether a mask has no bit of activity or of showing.
fn is_deaf(mask: u32) -> bool
    ensures value { result ≡ is_deaf mask }
{
    mask & 131_072 == 0 && mask & 262_144 == 0
}
