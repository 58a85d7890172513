//! Links, doors and paces in memory, which fail at the calls that are named.
use crate::tests::have::{calls, have, owned, text};
use mix_base::{Bytes32, ListOf};
use mix_outside::{
    Beat, Came, Comer, CountPace, Door, Got, Link, LinkItem, MemDoor, MemLink, Pace, Put, Sent,
};
use std::alloc::Global;
use std::process::Abort;

/// A link that has a text, nothing for a while, and bytes.
fn three_things(rt: &impl Abort, alloc: Global, failing: &[u64]) -> MemLink {
    let mut items = Vec::new(alloc);
    have(rt, items.push(LinkItem::Text(text(rt, alloc, "one"))));
    have(rt, items.push(LinkItem::Idle));
    have(rt, items.push(LinkItem::Binary(owned(rt, alloc, b"two"))));
    MemLink::new(alloc, ListOf::from_vec(items), calls(rt, alloc, failing))
}

/// What came, as one letter.
fn letter(got: &Got) -> u8 {
    match got {
        Got::Text(text) if text.as_str() == "one" => b't',
        Got::Binary(bytes) if bytes.as_slice() == b"two".as_slice() => b'b',
        Got::Text(_) | Got::Binary(_) => b'?',
        Got::Idle => b'i',
        Got::End => b'e',
        Got::Failed => b'f',
    }
}

/// The next thing that comes from a link is this.
fn expect_got(rt: &impl Abort, link: &mut MemLink, wanted: u8) {
    let got = have(rt, link.recv());
    let found = letter(&got);
    drop(got);
    assert!(rt; found == wanted);
}

/// A text is sent with this outcome.
fn expect_sent(rt: &impl Abort, alloc: Global, link: &mut MemLink, wanted: Put) {
    let said = text(rt, alloc, "hello");
    let put = have(rt, link.send(&said));
    drop(said);
    assert!(rt; put as u8 == wanted as u8);
}

#[test]
fn a_link_gives_its_things_in_order_and_fails_where_it_is_told(rt: HostRuntime) {
    let alloc = rt.alloc();
    let mut link = three_things(&rt, alloc, &[1, 3]);
    expect_got(&rt, &mut link, b't');
    expect_got(&rt, &mut link, b'f');
    expect_got(&rt, &mut link, b'i');
    expect_sent(&rt, alloc, &mut link, Put::Failed);
    expect_sent(&rt, alloc, &mut link, Put::Done);
    expect_got(&rt, &mut link, b'b');
    expect_got(&rt, &mut link, b'e');
    drop(link);
}

/// A hello and a close were sent.
fn is_closed_after_hello(sent: &[Sent]) -> bool {
    match sent {
        [Sent::Text(text), Sent::Close(1001)] => text.as_str() == "hello",
        _ => false,
    }
}

#[test]
fn a_link_keeps_what_it_was_sent(rt: HostRuntime) {
    let alloc = rt.alloc();
    let mut link = three_things(&rt, alloc, &[]);
    expect_sent(&rt, alloc, &mut link, Put::Done);
    let put = have(&rt, link.close(1001));
    let kept = is_closed_after_hello(link.sent());
    drop(link);
    assert!(rt; put as u8 == Put::Done as u8);
    assert!(rt; kept);
}

/// Who came, as one letter.
fn came(rt: &impl Abort, door: &mut MemDoor) -> u8 {
    match have(rt, door.next()) {
        Came::Link { link, challenge } => {
            drop(link);
            challenge.0[0]
        }
        Came::Idle => b'i',
        Came::End => b'e',
        Came::Failed => b'f',
    }
}

/// A door in memory through which one link comes, and then nobody for a while.
fn one_comer(rt: &impl Abort, alloc: Global) -> MemDoor {
    let mut comers = Vec::new(alloc);
    let link = three_things(rt, alloc, &[]);
    let challenge = Bytes32([b'l'; 32]);
    have(rt, comers.push(Comer::Link { link, challenge }));
    have(rt, comers.push(Comer::Idle));
    MemDoor::new(ListOf::from_vec(comers), calls(rt, alloc, &[1]))
}

#[test]
fn a_door_gives_its_links_and_then_its_end(rt: HostRuntime) {
    let mut door = one_comer(&rt, rt.alloc());
    assert!(rt; came(&rt, &mut door) == b'l');
    assert!(rt; came(&rt, &mut door) == b'f');
    assert!(rt; came(&rt, &mut door) == b'i');
    assert!(rt; came(&rt, &mut door) == b'e');
    drop(door);
}

#[test]
fn a_pace_gives_its_ticks_and_then_its_end(rt: HostRuntime) {
    let mut pace = CountPace::new(2);
    assert!(rt; pace.wait() as u8 == Beat::Tick as u8);
    assert!(rt; pace.wait() as u8 == Beat::Tick as u8);
    assert!(rt; pace.wait() as u8 == Beat::End as u8);
}
