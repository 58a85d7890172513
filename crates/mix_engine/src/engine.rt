//! The engine: the mixer, and the journal of all that it has done.
ghost use Rattle.std.specs.Prelude.{◌≡◌, ◌↔◌, ◌≤◌, ◌+◌, ◌&&◌, IfOk, IfErr, IfSome, OnOk, IsTrue, false};
ghost use Rattle.std.specs.Prelude.{is_some, length, nat_lt, nat_le};
ghost use Rattle.mix_model.specs.declared.action.Action.{Action};
ghost use Rattle.mix_model.specs.State.{StudioState};
ghost use Rattle.mix_model.specs.WholeShape.{StateShape};
ghost use Rattle.mix_shape.specs.Refused.{are_limits};
ghost use Rattle.mix_events.specs.Sayings.{IsSayableReply};
ghost use Rattle.mix_engine.specs.Answers.{Agrees, Replies, answer_to, due_after};
ghost use Rattle.mix_engine.specs.Built.{is_built};
ghost use Rattle.mix_engine.specs.Heads.{head_of};
ghost use Rattle.mix_engine.specs.Headings.{is_unbuilt};
ghost use Rattle.mix_engine.specs.Numbers.{NumbersWithin};
ghost use Rattle.mix_model.specs.Fitting.{IsFitting};
ghost use Rattle.mix_engine.specs.StepAnswers.{HasShot, HasVoices, IsReady};

use crate::laws::requests_are_proper;
use crate::{ActFault, Full, Head, Heading, Mixing, Setup, StepAnswer};
use mix_base::{ListOf, NoMemory, PassNo, Shelf};
use mix_events::{Answer, Reply};
use mix_model::{Action, Entry, Message};
use mix_script::line_length;
use std::alloc::Global;
use std::marker::Model;

/// The mixer, and the journal of all that it has done. Contracts see the state that it opened with,
/// its limits, the journal, and the first action that found no room; the state that it has is the
/// replay of its journal.
#[derive(Drop)]
pub struct Engine {
    setup: Setup,
    mixing: Mixing,
    journal: Vec<Entry>,
    /// Where the texts of the journal stand.
    shelf: Shelf,
    /// The bytes of the journal's text.
    bytes: u64,
    full: Option<Full>,
}

impl Model for Engine {
    ghost use Rattle.std.specs.Prelude.{IsTrue, length, ◌≤◌};
    ghost use Rattle.mix_base.specs.contracts.json.Json as json_contracts;
    ghost use Rattle.std.specs.Coded.{codes};
    ghost use Rattle.mix_shape.specs.Refused.{are_limits};
    ghost use Rattle.mix_engine.specs.Engines.{EngineModel};
    ghost use Rattle.mix_engine.specs.Mixer.{start_of};
    ghost use Rattle.mix_engine.specs.Replayed.{Replayed};

    ghost Value = { EngineModel };

    ghost coded = { Prim.hlevel (codes, json_contracts.the_row.coded) };

    ghost view = { λ e. record {
      start = start_of e.setup.collection;
      limits = e.setup.limits;
      journal = e.journal.items;
      full = e.full;
    } };

    ghost invariant = { λ e.
        Replayed (start_of e.setup.collection) e.journal.items e.mixing e.bytes
        × IsTrue (are_limits e.setup.limits)
        × (length e.journal.items ≤ e.setup.limits.turns)
        × (e.bytes ≤ e.setup.limits.bytes) };
}

impl Engine {
    ghost use Rattle.mix_engine.specs.Engines.{engine_of, present, has_room, acted, refused};
    ghost use Rattle.mix_engine.specs.Engines.{IsHistoryFull, TellsNumbers};
    ghost use Rattle.mix_engine.specs.Engines.{IsLineOf, text_bytes, with_full};
    ghost use Rattle.mix_engine.specs.declared.fault.ActFault.TheVariants.{HistoryFull};

    /// Opens a collection whose values are in their ranges: nobody is connected, and nothing was
    /// done. None where the collection can't be opened.
    pub fn open(alloc: Global, setup: Setup) -> Result<Option<Engine>, NoMemory>
        requires fits { IsFitting setup.collection }
        requires limits { IsTrue (are_limits setup.limits) }
        ensures value { IfOk result (λ engine. engine ≡ engine_of setup) }
    {
        let Ok(opened) = Mixing::open(alloc, &setup) else {
            drop(setup);
            return Err(NoMemory);
        };
        let Some(mixing) = opened else {
            drop(setup);
            return Ok(None);
        };
        Ok(Some(Engine {
            setup,
            mixing,
            journal: Vec::new(alloc),
            shelf: Shelf::new(alloc),
            bytes: 0,
            full: None,
        }))
    }

    /// Does one action. None where it isn't built: then nothing is done. At `Err` nothing is done
    /// either, and the action is dropped. All memory is taken before anything is changed.
    pub fn act(
        &mut self,
        alloc: Global,
        from: PassNo,
        action: Action,
    ) -> Result<Option<Answer>, ActFault>
        ensures built { IfOk result
            (λ answer. is_some answer ≡ is_built (present self.old) action) }
        ensures reply { IfOk result (λ answer. IfSome answer
            (λ a. Agrees a (answer_to self.old.start self.old.journal action))) }
        ensures sayable { IfOk result (λ answer. IfSome answer (λ a. IsSayableReply a.reply)) }
        ensures state { OnOk result (self.new ≡ acted from action self.old) }
        ensures history_full { IsHistoryFull result ↔ (has_room self.old action ≡ false) }
        ensures numbers { IfErr result (λ fault. TellsNumbers fault self.old) }
        ensures err { IfErr result (λ fault. self.new ≡ refused fault action self.old) }
    {
        let line = line_length(&action);
        if !self.has_room(line) {
            drop(action);
            return Err(self.refuse(line));
        }
        let Ok(()) = self.journal.reserve(1) else {
            drop(action);
            return Err(ActFault::NoMemory);
        };
        requests_are_proper();
        self.mixing.has_shape();
        let Ok(answer) = self.mixing.act(alloc, &action) else {
            drop(action);
            return Err(ActFault::NoMemory);
        };
        if answer.heading.is_unbuilt() {
            drop(action);
            drop(answer);
            return Ok(None);
        }
        self.bytes += line;
        let action = shelved(&mut self.shelf, action);
        self.journal.push_reserved(Entry { from, action });
        Ok(Some(self.answer(answer)))
    }

    /// All that was done, in its order.
    pub fn journal(&self) -> &[Entry]
        ensures value { result.now ≡ self.now.journal }
    {
        self.journal.as_slice()
    }

    /// The first action that found no room.
    pub fn full(&self) -> Option<Full>
        ensures value { result ≡ self.now.full }
    {
        self.full
    }

    /// How many rows die.
    pub fn dying(&self) -> u32
        ensures value { result ≡ length (present self.now).studio.graph.dying }
    {
        self.mixing.dying()
    }

    /// Width and height of the picture in pixels.
    pub fn canvas(&self) -> (u32, u32)
        ensures value { result ≡ (present self.now).studio.canvas }
    {
        self.mixing.canvas()
    }

    /// The head of this recording's record.
    pub fn head(&self, recording: u64) -> Head
        ensures value { result ≡ head_of (present self.now).studio recording }
    {
        let (width, height) = self.mixing.canvas();
        Head {
            i420: self.setup.collection.i420,
            tracks: self.setup.collection.tracks,
            width,
            height,
            rate: self.mixing.rate(),
            recording,
        }
    }

    /// The whole state has the shape of every mixer's, after each action, and no number runs ahead of
    /// the entries: each next number and both clocks are at most 4096 more than there are. It does
    /// nothing.
    pub fn has_shape(&self)
        ensures shape { StateShape (present self.now) }
        ensures numbers { NumbersWithin (4096 + length self.now.journal) (present self.now) }
    {
        self.mixing.has_shape();
    }

    /// Whether the history has room for one more action, with a line of so many bytes.
    fn has_room(&self, line: u64) -> bool
        ensures value { (action : Action) → IsLineOf line action →
            result ≡ has_room self.now action }
    {
        (self.journal.len() as u64) < self.setup.limits.turns
            && line <= self.setup.limits.bytes - self.bytes
    }

    /// Refuses an action with a line of so many bytes: the history has no room for it. The first
    /// one is remembered.
    fn refuse(&mut self, line: u64) -> ActFault
        ensures fault { result
            ≡ HistoryFull (length self.old.journal) (text_bytes self.old.journal) }
        ensures state { (action : Action) → IsLineOf line action →
            self.new ≡ with_full action self.old }
    {
        let turns = self.journal.len() as u64;
        let bytes = self.bytes;
        if self.full.is_none() {
            self.full = Some(Full { turns, bytes, line });
        }
        ActFault::HistoryFull { turns, bytes }
    }

    /// What a step is answered, in the state that it left.
    fn answer(&self, step: StepAnswer) -> Answer
        requires ready { IsReady step }
        ensures reply { (found : StudioState) → HasShot step.heading found step.shot →
            HasVoices step.heading found step.voices →
            Replies step.heading found step.said.items
            (due_after step.heading (present self.now)) result.reply }
        ensures stopping { result.stopping ≡ (present self.now).notes.stop }
        ensures dying { result.dying ≡ length (present self.now).studio.graph.dying }
        ensures sayable { IsSayableReply result.reply }
    {
        let due = self.is_due(step.heading);
        Answer {
            reply: reply_of(step, due),
            stopping: self.mixing.stopping(),
            dying: self.mixing.dying(),
        }
    }

    /// Whether the next request of the oldest batch of the one that acted is due.
    fn is_due(&self, heading: Heading) -> bool
        ensures value { result ≡ due_after heading (present self.now) }
    {
        match heading {
            Heading::Told { conn } => self.mixing.due(conn),
            _ => false,
        }
    }
}

/// The same action, with its text on the shelf.
fn shelved(shelf: &mut Shelf, action: Action) -> Action
    ensures value { result ≡ action }
{
    match action {
        Action::Hear { conn, message } => Action::Hear {
            conn,
            message: message_on(shelf, message),
        },
        other => other,
    }
}

/// The same message, with its text on the shelf.
fn message_on(shelf: &mut Shelf, message: Message) -> Message
    ensures value { result ≡ message }
{
    match message {
        Message::Text(text) => Message::Text(shelf.keep(text)),
        Message::Binary(bytes) => Message::Binary(bytes),
    }
}

/// The reply of a step that is built.
fn reply_of(step: StepAnswer, due: bool) -> Reply
    requires ready { IsReady step }
    ensures reply { (found : StudioState) → HasShot step.heading found step.shot →
        HasVoices step.heading found step.voices →
        Replies step.heading found step.said.items due result }
    ensures sayable { IsSayableReply result }
{
    let StepAnswer {
        heading,
        said,
        shot,
        voices,
    } = step;
    match heading {
        Heading::Full => Reply::Full,
        Heading::Gone { conn } => Reply::Gone { conn },
        Heading::Left { conn } => Reply::Left { conn },
        Heading::Told { conn } => Reply::Told {
            conn,
            said: ListOf::from_vec(said),
            close: None,
            due,
        },
        Heading::Closed { conn, code } => Reply::Told {
            conn,
            said: ListOf::from_vec(said),
            close: Some(code),
            due,
        },
        Heading::Frame { number, recording } => match shot {
            Some(shot) => Reply::Frame {
                number,
                shot,
                recording,
            },
            None => unreachable!(),
        },
        Heading::NoFrame => Reply::NoFrame,
        Heading::Block { number, recording } => match voices {
            Some(voices) => Reply::Block {
                number,
                voices,
                recording,
            },
            None => unreachable!(),
        },
        Heading::FrameGone { number } => Reply::FrameGone { number },
        Heading::NoSuchFrame => Reply::NoSuchFrame,
        Heading::Destroyed { serial } => Reply::Destroyed(serial),
        Heading::Nothing => Reply::Nothing,
        Heading::NotBuilt => unreachable!(),
    }
}
