//! Connections of a fanout, what they are told, and what waits for them.
ghost use Rattle.mix_events.specs.Sayable.{IsSayableEvent};

use crate::tests::have::have;
use mix_base::ConnId;
use mix_events::{Said, ToldEvent};
use mix_fanout::{Fanout, Waiting};
use mix_model::Event;
use std::alloc::Global;
use std::process::Abort;

pub const ONE: ConnId = ConnId(1);

pub const TWO: ConnId = ConnId(2);

/// The bit of the events on transitions.
pub const TRANSITIONS: u32 = 16;

/// A connection comes, where it isn't there, and names what it wants.
pub fn come(rt: &impl Abort, alloc: Global, fanout: &mut Fanout, conn: ConnId, mask: u32) {
    if !fanout.has(conn) {
        have(rt, fanout.join(alloc, conn));
    }
    if fanout.has(conn) {
        fanout.set_mask(conn, mask);
    }
}

/// Connections 1 and 2, of which both want the events on transitions; three texts fill a list.
pub fn two(rt: &impl Abort, alloc: Global) -> Fanout {
    let mut fanout = Fanout::new(alloc, 3);
    come(rt, alloc, &mut fanout, ONE, TRANSITIONS);
    come(rt, alloc, &mut fanout, TWO, TRANSITIONS);
    fanout
}

/// An event comes, whose serials are short and whose numbers are whole.
pub fn tell(rt: &impl Abort, alloc: Global, fanout: &mut Fanout, event: Event, but: Option<ConnId>)
    requires { IsSayableEvent event }
{
    let told = have(rt, ToldEvent::new(alloc, event));
    have(rt, fanout.reserve(1));
    assert!(rt; fanout.spare() > 0);
    fanout.post(told, but);
}

/// The duration of transitions changes.
pub fn tell_duration(
    rt: &impl Abort,
    alloc: Global,
    fanout: &mut Fanout,
    duration: u32,
    but: Option<ConnId>,
) {
    let event = Event::CurrentSceneTransitionDurationChanged { duration };
    tell(rt, alloc, fanout, event, but);
}

/// What waits for a connection that has joined.
pub fn copied(rt: &impl Abort, alloc: Global, fanout: &Fanout, conn: ConnId) -> Waiting {
    assert!(rt; fanout.has(conn), "not joined");
    have(rt, fanout.copy(alloc, conn, 0))
}

/// Whether an event tells of this duration.
fn is_duration(said: &Said, wanted: u32) -> bool {
    let Said::Event(told) = said else {
        return false;
    };
    match told.event() {
        Event::CurrentSceneTransitionDurationChanged { duration } => *duration == wanted,
        _ => false,
    }
}

/// These durations wait for a connection, in this order, and nothing else.
pub fn expect(rt: &impl Abort, alloc: Global, fanout: &Fanout, conn: ConnId, wanted: &[u32]) {
    let waiting = copied(rt, alloc, fanout, conn);
    assert!(rt; waiting.said.len() == wanted.len());
    for (said, duration) in waiting.said.iter().zip(wanted) {
        assert!(rt; is_duration(said, *duration), "{duration} isn't told");
    }
    drop(waiting);
}

/// Whether a connection is cut, as what waits for it says too.
pub fn expect_cut(rt: &impl Abort, alloc: Global, fanout: &Fanout, conn: ConnId, wanted: bool) {
    let waiting = copied(rt, alloc, fanout, conn);
    let cut = waiting.cut;
    drop(waiting);
    assert!(rt; cut == wanted && fanout.is_cut(conn) == wanted);
}
