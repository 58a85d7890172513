//! Copies of sources, notes, entries and collections.
use crate::tests::have::have;
use crate::tests::places::{corner, is_corner, is_white, new_sound, white};
use mix_base::{Bytes32, ConnId, ItemId, ListOf, Name, PassNo, Rate, Serial, Text};
use mix_model::{
    Action, Blend, Collection, Entry, Item, Kind, Line, LineList, Message, Note, Notes, Row,
};
use std::alloc::Global;
use std::process::Abort;

fn an_item() -> Item {
    Item {
        id: ItemId(1),
        child: Serial(2),
        enabled: true,
        locked: false,
        place: corner(),
        blend: Blend::Normal,
    }
}

/// Whether it is that item.
fn is_item(item: &Item) -> bool {
    let named = item.id == ItemId(1) && item.child == Serial(2);
    let set = item.enabled && !item.locked && item.blend == Blend::Normal;
    named && set && is_corner(&item.place)
}

#[test]
fn a_copied_source_has_its_pixels_and_items(rt: HostRuntime) {
    let alloc = rt.alloc();
    let row = Row {
        serial: Serial(7),
        name: have(&rt, Name::read(b"A")),
        kind: Kind::Raster,
        settings: white(&rt, alloc),
        sound: new_sound(),
        since: 3,
        items: ListOf::from_vec(have(&rt, Vec::from_slice(alloc, &[an_item()]))),
        next_item: 2,
    };
    let copy = have(&rt, row.copy(alloc));
    drop(row);
    assert!(rt; copy.name.bytes() == b"A".as_slice());
    assert!(rt; is_white(&copy.settings));
    assert!(rt; copy.items.as_slice().len() == 1);
    assert!(rt; copy.items.as_slice().iter().all(|item| is_item(item)));
    drop(copy);
}

#[test]
fn copied_notes_are_equal(rt: HostRuntime) {
    let alloc = rt.alloc();
    let note = Note {
        id: 1,
        conn: ConnId(1),
        serial: Serial(2),
    };
    let notes = Notes {
        stop: true,
        holds: ListOf::from_vec(have(&rt, Vec::from_slice(alloc, &[note]))),
        watches: ListOf::from_vec(Vec::new(alloc)),
        sleep: 2,
    };
    let copy = have(&rt, notes.copy(alloc));
    drop(notes);
    assert!(rt; copy.holds.as_slice().len() == 1);
    for hold in copy.holds.as_slice() {
        assert!(rt; hold.id == 1 && hold.conn == ConnId(1) && hold.serial == Serial(2));
    }
    drop(copy);
}

/// The bytes of the message that an entry hears.
fn heard(entry: &Entry) -> &[u8] {
    match &entry.action {
        Action::Hear {
            message: Message::Text(text),
            ..
        } => text.bytes(),
        Action::Hear {
            message: Message::Binary(bytes),
            ..
        } => bytes.as_slice(),
        _ => b"".as_slice(),
    }
}

/// A copied entry that hears this message has it, and its bytes are `hi`.
fn expect_heard(rt: &impl Abort, alloc: Global, message: Message) {
    let entry = Entry {
        from: PassNo { pass: 1, number: 2 },
        action: Action::Hear {
            conn: ConnId(3),
            message,
        },
    };
    let copy = have(rt, entry.copy(alloc));
    drop(entry);
    assert!(rt; heard(&copy) == b"hi".as_slice());
    drop(copy);
}

#[test]
fn a_copied_entry_has_its_message(rt: HostRuntime) {
    let alloc = rt.alloc();
    let text = have(&rt, Text::from_str(alloc, "hi"));
    expect_heard(&rt, alloc, Message::Text(text));
    let bytes = have(&rt, Vec::from_slice(alloc, &[104, 105]));
    expect_heard(&rt, alloc, Message::Binary(ListOf::from_vec(bytes)));
}

/// A scene and an input.
fn two_lines(rt: &impl Abort, alloc: Global, name: &Name) -> LineList {
    let mut lines = Vec::new(alloc);
    have(rt, lines.push(Line::Scene { name: name.share() }));
    let input = Line::Input {
        kind: Kind::Raster,
        name: name.share(),
        settings: white(rt, alloc),
    };
    have(rt, lines.push(input));
    ListOf::from_vec(lines)
}

fn a_collection(rt: &impl Abort, alloc: Global) -> Collection {
    let name = have(rt, Name::read(b"A"));
    let password = have(rt, Text::from_str(alloc, "hunter2"));
    Collection {
        canvas: (2, 1),
        rate: Rate { num: 30, den: 1 },
        i420: false,
        tracks: 1,
        secret: Some((password, Bytes32([0; 32]))),
        lines: two_lines(rt, alloc, &name),
        fade: true,
        ms: 300,
        studio: Some(name.share()),
        program: name,
    }
}

/// The password of a collection, empty where it has none.
fn password(collection: &Collection) -> &[u8] {
    match &collection.secret {
        Some((password, _)) => password.bytes(),
        None => b"".as_slice(),
    }
}

#[test]
fn a_copied_collection_has_its_lines(rt: HostRuntime) {
    let alloc = rt.alloc();
    let collection = a_collection(&rt, alloc);
    let copy = have(&rt, collection.copy(alloc));
    drop(collection);
    assert!(rt; copy.program.bytes() == b"A".as_slice());
    assert!(rt; copy.lines.as_slice().len() == 2);
    assert!(rt; password(&copy) == b"hunter2".as_slice());
    drop(copy);
}
