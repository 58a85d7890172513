//! What a call answered, in words.
use crate::reading::blend_word;
use crate::room::corner;
use mix_base::{ItemId, NoMemory, Serial};
use mix_graph::{Change, Graph, GraphFault, Missing};
use mix_model::{Item, Place};
use std::fmt::Write;

/// What a call answered.
#[derive(Clone, Copy)]
pub enum Answer {
    Done,
    /// A source, an item, a hold, a watch or a frame that was given isn't there.
    Missing,
    /// The name belongs to a source.
    Taken,
    Refused(GraphFault),
    /// The line asks for more than a scenario may: the call wasn't made.
    Beyond,
    Number(u64),
    Truth(bool),
    Maybe(Option<Serial>),
    Made(Serial, Option<ItemId>),
    Channel(Option<Serial>, Option<Serial>),
    Item(Item),
    /// The items of a row, the active sources, those that show, and the changes.
    Items(Serial),
    Active,
    Showing,
    Changes,
}

/// The answer of a call that says no more than that something was missing.
pub fn done(answer: Result<(), Missing>) -> Answer {
    match answer {
        Ok(()) => Answer::Done,
        Err(Missing) => Answer::Missing,
    }
}

/// Writes a word more.
fn put(text: &mut String, word: &str) -> Result<(), NoMemory> {
    if !text.is_empty() {
        text.push_str(" ")?;
    }
    text.push_str(word)?;
    Ok(())
}

fn put_number(text: &mut String, number: u64) -> Result<(), NoMemory> {
    put(text, "")?;
    write!(text, "{number}")?;
    Ok(())
}

fn put_maybe(text: &mut String, serial: Option<Serial>) -> Result<(), NoMemory> {
    match serial {
        Some(serial) => put_number(text, serial.0),
        None => put(text, "none"),
    }
}

fn put_made(text: &mut String, serial: Serial, item: Option<ItemId>) -> Result<(), NoMemory> {
    put_number(text, serial.0)?;
    match item {
        Some(item) => {
            put(text, "item")?;
            put_number(text, u64::from(item.0))
        }
        None => Ok(()),
    }
}

fn put_fault(text: &mut String, fault: GraphFault) -> Result<(), NoMemory> {
    match fault {
        GraphFault::NotFound => put(text, "not found"),
        GraphFault::WrongKind => put(text, "wrong kind"),
        GraphFault::Exists => put(text, "exists"),
        GraphFault::Cycle => put(text, "cycle"),
        GraphFault::Depth => put(text, "depth"),
        GraphFault::TooMany { limit } => {
            put(text, "too many")?;
            put_number(text, u64::from(limit))
        }
        GraphFault::NoMemory => put(text, "no memory"),
    }
}

fn is_in_corner(place: &Place) -> bool {
    let corner = corner();
    place.x == corner.x
        && place.y == corner.y
        && place.scale_x == corner.scale_x
        && place.scale_y == corner.scale_y
        && place.quarter == corner.quarter
        && place.align == corner.align
        && place.crop_left == corner.crop_left
        && place.crop_top == corner.crop_top
        && place.crop_right == corner.crop_right
        && place.crop_bottom == corner.crop_bottom
}

/// All that an item is: its id, what it shows, and how.
fn put_item(text: &mut String, item: &Item) -> Result<(), NoMemory> {
    put_number(text, u64::from(item.id.0))?;
    put(text, "shows")?;
    put_number(text, item.child.0)?;
    put(text, if item.enabled { "enabled" } else { "disabled" })?;
    put(text, if item.locked { "locked" } else { "unlocked" })?;
    put(text, blend_word(item.blend))?;
    put(
        text,
        if is_in_corner(&item.place) {
            "in the corner"
        } else {
            "elsewhere"
        },
    )
}

/// The ids of a row's items from bottom to top.
fn put_items(text: &mut String, graph: &Graph, parent: Serial) -> Result<(), NoMemory> {
    for index in 0..4000 {
        let Some(item) = graph.item_at(parent, index) else {
            return Ok(());
        };
        put_number(text, u64::from(item.id.0))?;
    }
    put(text, "and more")
}

fn put_active(text: &mut String, graph: &Graph) -> Result<(), NoMemory> {
    for serial in 0..graph.next_serial().0 {
        if graph.active(Serial(serial)) {
            put_number(text, serial)?;
        }
    }
    Ok(())
}

fn put_showing(text: &mut String, graph: &Graph) -> Result<(), NoMemory> {
    for serial in 0..graph.next_serial().0 {
        if graph.showing(Serial(serial)) {
            put_number(text, serial)?;
        }
    }
    Ok(())
}

fn put_change(text: &mut String, change: Change) -> Result<(), NoMemory> {
    let (serial, what, now) = match change {
        Change::Active { serial, now } => (serial, "active", now),
        Change::Showing { serial, now } => (serial, "showing", now),
    };
    put_number(text, serial.0)?;
    put(text, what)?;
    put(text, if now { "on" } else { "off" })
}

/// The changes since the action began, by commas.
fn put_changes(text: &mut String, graph: &Graph) -> Result<(), NoMemory> {
    for change in graph.changes() {
        if !text.is_empty() {
            text.push_str(",")?;
        }
        put_change(text, *change)?;
    }
    Ok(())
}

impl Answer {
    fn put(self, text: &mut String, graph: &Graph) -> Result<(), NoMemory> {
        match self {
            Answer::Done => put(text, "done"),
            Answer::Missing => put(text, "missing"),
            Answer::Taken => put(text, "exists"),
            Answer::Refused(fault) => put_fault(text, fault),
            Answer::Beyond => put(text, "not to be asked in a scenario"),
            Answer::Number(number) => put_number(text, number),
            Answer::Truth(truth) => put(text, if truth { "yes" } else { "no" }),
            Answer::Maybe(serial) => put_maybe(text, serial),
            Answer::Made(serial, item) => put_made(text, serial, item),
            Answer::Channel(first, second) => {
                put_maybe(text, first)?;
                put_maybe(text, second)
            }
            Answer::Item(item) => put_item(text, &item),
            Answer::Items(parent) => put_items(text, graph, parent),
            Answer::Active => put_active(text, graph),
            Answer::Showing => put_showing(text, graph),
            Answer::Changes => put_changes(text, graph),
        }
    }

    /// Writes the answer in place of what the text held; of an empty list it is `none`.
    pub fn write(self, text: &mut String, graph: &Graph) -> Result<(), NoMemory> {
        text.clear();
        self.put(text, graph)?;
        if text.is_empty() {
            put(text, "none")?;
        }
        Ok(())
    }
}
