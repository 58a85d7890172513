//! The open connections: their sessions, and the events that wait for each.
ghost use Rattle.std.specs.Prelude.{◌≡◌, ◌≤◌, ◌+◌, ◌-◌, [], ◌∷◌, ◌++◌, IfOk, OnOk, OnErr};
ghost use Rattle.std.specs.Prelude.{All, filter, is_some, length, map, max, option_map};
ghost use Rattle.std.specs.Prelude.{vec_capacity, vec_len, Some, None, true, if◌then◌else◌};
ghost use Rattle.std.specs.Option.{option_copied};
ghost use Rattle.mix_events.specs.declared.said.Said.TheVariants.{Event as OfEvent};
ghost use Rattle.mix_session.specs.Hear.{hear};
ghost use Rattle.mix_session.specs.SessionState.{hello, secret_of};
ghost use Rattle.mix_fanout.specs.Lanes.{wants};
ghost use Rattle.mix_audience.specs.Listeners.{emptied, ended, is_other, listener_at, new_listener};
ghost use Rattle.mix_audience.specs.Listeners.{queued, waiting_for, with_mask};
ghost use Rattle.mix_audience.specs.Acting.{IsTwin, queued_in, taken_by};
ghost use Rattle.mix_audience.specs.Sides.{member_of};

use crate::member::Member;
use crate::members;
use mix_base::{Bytes32, ConnId, NoMemory};
use mix_events::{Said, ToldEvent, Twin, intent};
use mix_fanout::Fanout;
use mix_json::JsonReader;
use mix_model::{Event, Message};
use mix_session::{Heard, Secret, Session};
use std::alloc::Global;
use std::marker::Model;

/// For how many waiting texts a connection is cut.
const MOST_WAITING: u32 = 4096;

/// The open connections: their sessions, and the events that wait for each.
///
/// ```text
/// join --> takes nothing --identify--> takes its events --end--> cut: takes nothing --leave-->
/// ```
///
/// An action is told in three steps. First what waits for the one that acts is copied and room is
/// made, then the events come, and then the action ends. Only the first step takes memory.
#[derive(Drop)]
pub struct Audience {
    secret: Option<Secret>,
    members: Vec<Member>,
    fanout: Fanout,
}

impl Model for Audience {
    ghost use Rattle.std.specs.Prelude.{option_map};
    ghost use Rattle.std.specs.Coded.{codes};
    ghost use Rattle.mix_base.specs.contracts.json.Json as json_contracts;
    ghost use Rattle.mix_session.specs.SessionState.{secret_of};
    ghost use Rattle.mix_audience.specs.Listeners.{AudienceModel};
    ghost use Rattle.mix_audience.specs.Sides.{IsKept, audience_of};

    ghost Value = { AudienceModel };

    ghost coded = { Prim.hlevel (codes, json_contracts.the_row.coded) };

    ghost view = { λ a. audience_of (option_map secret_of a.secret) a.members.items a.fanout };

    ghost invariant = { λ a.
        IsKept a.members.items a.fanout
        (audience_of (option_map secret_of a.secret) a.members.items a.fanout) };
}

impl Audience {
    /// Nobody is there. Who comes has to know the secret, where there is one.
    pub fn new(alloc: Global, secret: Option<Secret>) -> Audience
        ensures secret { result.secret ≡ option_map secret_of secret }
        ensures listeners { result.listeners ≡ [] }
        ensures spare { result.spare ≡ 0 }
    {
        Audience {
            secret,
            members: Vec::new(alloc),
            fanout: Fanout::new(alloc, MOST_WAITING),
        }
    }

    /// How many connections are open.
    pub fn len(&self) -> usize
        ensures value { result ≡ length self.now.listeners }
    {
        self.members.len()
    }

    /// Whether the connection is cut; none where it isn't open.
    pub fn is_cut(&self, conn: ConnId) -> Option<bool>
        ensures value { result ≡ option_map (λ l. l.cut) (listener_at conn self.now.listeners) }
    {
        match self.member(conn) {
            None => None,
            Some(_) => Some(self.fanout.is_cut(conn)),
        }
    }

    /// What a message of the connection comes to; none where it isn't open. The reader lends the room
    /// that reading takes.
    pub fn hear(
        &self,
        alloc: Global,
        reader: &mut JsonReader,
        conn: ConnId,
        message: &Message,
    ) -> Result<Option<Heard>, NoMemory>
        ensures value { IfOk result (λ heard. heard ≡ option_map
            (λ l. hear self.now.secret l.challenge l.mask message.now)
            (listener_at conn self.now.listeners)) }
    {
        match self.member(conn) {
            None => Ok(None),
            Some(member) => Ok(Some(member.session.hear(alloc, reader, message)?)),
        }
    }

    /// A connection comes, and is told Hello: the answer is that text.
    pub fn join(
        &mut self,
        alloc: Global,
        conn: ConnId,
        challenge: &Bytes32,
    ) -> Result<Said, NoMemory>
        requires is_new { listener_at conn self.old.listeners ≡ None }
        ensures hello { IfOk result (λ said. said ≡ hello self.old.secret challenge.now) }
        ensures listeners { OnOk result (self.new.listeners
            ≡ self.old.listeners ++ new_listener conn challenge.now ∷ []) }
        ensures secret { self.new.secret ≡ self.old.secret }
        ensures spare { self.new.spare ≡ self.old.spare }
        ensures err { OnErr result (self.new ≡ self.old) }
    {
        self.members.reserve(1)?;
        let (session, hello) = Session::start(alloc, self.secret.as_ref(), challenge)?;
        let Ok(()) = self.fanout.join(alloc, conn) else {
            drop(session);
            drop(hello);
            return Err(NoMemory);
        };
        self.members.push_reserved(Member { conn, session });
        Ok(hello)
    }

    /// The connection is identified, and from now on takes the events of this mask.
    pub fn identify(&mut self, conn: ConnId, mask: u32)
        requires is_there { is_some (listener_at conn self.old.listeners) ≡ true }
        ensures listeners { self.new.listeners ≡ map (with_mask conn mask) self.old.listeners }
        ensures secret { self.new.secret ≡ self.old.secret }
        ensures spare { self.new.spare ≡ self.old.spare }
    {
        members::identify(&mut self.members, conn, mask);
        self.fanout.set_mask(conn, mask);
    }

    /// The connection goes, and what waited for it goes too.
    pub fn leave(&mut self, conn: ConnId)
        requires is_there { is_some (listener_at conn self.old.listeners) ≡ true }
        ensures listeners { self.new.listeners ≡ filter (is_other conn) self.old.listeners }
        ensures secret { self.new.secret ≡ self.old.secret }
        ensures spare { self.new.spare ≡ self.old.spare }
    {
        members::remove(&mut self.members, conn);
        self.fanout.leave(conn);
    }

    /// What waits for the connection, with room for `more` further texts.
    pub fn waiting(&self, alloc: Global, conn: ConnId, more: u32) -> Result<Vec<Said>, NoMemory>
        requires is_there { is_some (listener_at conn self.now.listeners) ≡ true }
        ensures said { IfOk result (λ said. said.items
            ≡ map OfEvent (waiting_for conn self.now.listeners)) }
        ensures room { IfOk result (λ said. vec_len said + more ≤ vec_capacity said) }
    {
        Ok(self.fanout.copy(alloc, conn, more)?.said)
    }

    /// Makes room for so many events.
    pub fn reserve(&mut self, events: u32) -> Result<(), NoMemory>
        ensures spare { OnOk result (self.new.spare ≡ max events self.old.spare) }
        ensures listeners { self.new.listeners ≡ self.old.listeners }
        ensures secret { self.new.secret ≡ self.old.secret }
        ensures err { OnErr result (self.new ≡ self.old) }
    {
        self.fanout.reserve(events)
    }

    /// The events of an action come, each as a pair: one of it waits for the others who take it, and
    /// the other one is told to the connection that acts, where it takes it.
    pub fn tell(&mut self, conn: ConnId, twins: Vec<Twin>, said: &mut Vec<Said>)
        requires pairs { All IsTwin twins.items }
        requires spare { vec_len twins ≤ self.old.spare }
        requires room { vec_len said.old + vec_len twins ≤ vec_capacity said.old }
        ensures listeners { self.new.listeners
            ≡ map (queued (Some conn) (queued_in twins.items)) self.old.listeners }
        ensures secret { self.new.secret ≡ self.old.secret }
        ensures spare { self.new.spare + vec_len twins ≡ self.old.spare }
        ensures said { said.new.items ≡ said.old.items
            ++ map OfEvent (taken_by conn self.old.listeners (queued_in twins.items)) }
        ensures room { vec_len said.new ≤ vec_len said.old + vec_len twins }
        ensures capacity { vec_capacity said.new ≡ vec_capacity said.old }
    {
        for twin in twins {
            self.tell_one(conn, twin, said);
        }
    }

    /// The events of an action come at which nobody acts, each as a pair: one of it waits for
    /// everybody who takes it, and the other one is told to nobody.
    pub fn tell_all(&mut self, twins: Vec<Twin>)
        requires spare { vec_len twins ≤ self.old.spare }
        ensures listeners { self.new.listeners
            ≡ map (queued None (queued_in twins.items)) self.old.listeners }
        ensures secret { self.new.secret ≡ self.old.secret }
        ensures spare { self.new.spare + vec_len twins ≡ self.old.spare }
    {
        for twin in twins {
            let Twin { queued, told } = twin;
            drop(told);
            self.queue(queued, None);
        }
    }

    /// At the end of an action nothing waits for the one that acted, and every other connection is
    /// cut for which too many texts wait.
    pub fn end(&mut self, actor: Option<ConnId>)
        ensures listeners { self.new.listeners ≡ map (ended actor) self.old.listeners }
        ensures secret { self.new.secret ≡ self.old.secret }
        ensures spare { self.new.spare ≡ self.old.spare }
    {
        match actor {
            None => self.fanout.cut_full(None),
            Some(conn) => {
                self.clear(conn);
                self.fanout.cut_full(Some(conn));
            }
        }
    }

    /// The session of the connection, if it is open.
    fn member(&self, conn: ConnId) -> Option<&Member>
        ensures value { option_copied result
            ≡ option_map (member_of self.now.secret) (listener_at conn self.now.listeners) }
    {
        members::member_at(self.members.as_slice(), conn)
    }

    /// One event comes, as a pair.
    fn tell_one(&mut self, conn: ConnId, twin: Twin, said: &mut Vec<Said>)
        requires pair { IsTwin twin }
        requires spare { 1 ≤ self.old.spare }
        requires room { vec_len said.old + 1 ≤ vec_capacity said.old }
        ensures listeners { self.new.listeners
            ≡ map (queued (Some conn) (twin.queued ∷ [])) self.old.listeners }
        ensures secret { self.new.secret ≡ self.old.secret }
        ensures spare { self.new.spare ≡ self.old.spare - 1 }
        ensures said { said.new.items ≡ said.old.items
            ++ map OfEvent (taken_by conn self.old.listeners (twin.queued ∷ [])) }
        ensures room { vec_len said.new ≤ vec_len said.old + 1 }
        ensures capacity { vec_capacity said.new ≡ vec_capacity said.old }
    {
        let Twin { queued, told } = twin;
        self.say(conn, told, said);
        self.queue(queued, Some(conn));
    }

    /// An event waits for everybody who takes it, but for the one that acts.
    fn queue(&mut self, event: ToldEvent, actor: Option<ConnId>)
        requires spare { 1 ≤ self.old.spare }
        ensures listeners { self.new.listeners ≡ map (queued actor (event ∷ [])) self.old.listeners }
        ensures secret { self.new.secret ≡ self.old.secret }
        ensures spare { self.new.spare ≡ self.old.spare - 1 }
    {
        self.fanout.post(event, actor);
    }

    /// An event is told to the connection, where it takes it.
    fn say(&self, conn: ConnId, event: ToldEvent, said: &mut Vec<Said>)
        requires room { vec_len said.old + 1 ≤ vec_capacity said.old }
        ensures said { said.new.items ≡ said.old.items
            ++ map OfEvent (taken_by conn self.now.listeners (event ∷ [])) }
        ensures room { vec_len said.new ≤ vec_len said.old + 1 }
        ensures capacity { vec_capacity said.new ≡ vec_capacity said.old }
    {
        if self.takes(conn, event.event()) {
            said.push_reserved(Said::Event(event));
        } else {
            drop(event);
        }
    }

    /// Whether the connection takes the event; it doesn't where it isn't open.
    fn takes(&self, conn: ConnId, event: &Event) -> bool
        ensures value { taken_by conn self.now.listeners (event.now ∷ [])
            ≡ (if result then event.now ∷ [] else []) }
    {
        match self.member(conn) {
            None => false,
            Some(member) => {
                let wanted = wants(member.session.mask(), event);
                !self.fanout.is_cut(conn) && wanted
            }
        }
    }

    /// Nothing waits for the connection any more.
    fn clear(&mut self, conn: ConnId)
        ensures listeners { self.new.listeners ≡ map (emptied conn) self.old.listeners }
        ensures secret { self.new.secret ≡ self.old.secret }
        ensures spare { self.new.spare ≡ self.old.spare }
    {
        if self.fanout.has(conn) {
            self.fanout.clear(conn);
        }
    }
}

/// Whether a mask has the bit of the event. Who isn't identified has none.
fn wants(mask: Option<u32>, event: &Event) -> bool
    ensures value { result ≡ wants mask event.now }
{
    match mask {
        None => false,
        Some(mask) => mask & intent(event) != 0,
    }
}
