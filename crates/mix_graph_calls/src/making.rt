//! Calls that make sources and items, and ask for holds, watches and frames.
use crate::answer::Answer;
use crate::forms::Making;
use crate::given::Given;
use crate::room::{beep, has_room, plain};
use crate::stage::Stage;
use mix_base::{ItemId, Name, Serial};
use mix_graph::Graph;
use mix_model::Kind;

fn scene(graph: &mut Graph, text: &str) -> Answer {
    if !has_room(graph, Serial(0)) {
        return Answer::Beyond;
    }
    let Ok(name) = Name::read(text.as_bytes()) else {
        return Answer::Beyond;
    };
    match graph.create_scene(name) {
        Ok(serial) => Answer::Number(serial.0),
        Err(fault) => Answer::Refused(fault),
    }
}

/// A group, which a plain item of the parent shows.
fn group(graph: &mut Graph, text: &str, parent: Serial) -> Answer {
    if !has_room(graph, parent) {
        return Answer::Beyond;
    }
    let Ok(name) = Name::read(text.as_bytes()) else {
        return Answer::Beyond;
    };
    match graph.create_group(name, parent, plain()) {
        Ok((serial, item)) => Answer::Made(serial, Some(item)),
        Err(fault) => Answer::Refused(fault),
    }
}

/// A tone, which no item shows.
fn tone(graph: &mut Graph, text: &str) -> Answer {
    if !has_room(graph, Serial(0)) {
        return Answer::Beyond;
    }
    let Ok(name) = Name::read(text.as_bytes()) else {
        return Answer::Beyond;
    };
    match graph.create_input(name, Kind::Tone, beep(), None) {
        Ok((serial, item)) => Answer::Made(serial, item),
        Err(fault) => Answer::Refused(fault),
    }
}

/// A tone, which a plain item of the parent shows.
fn shown_tone(graph: &mut Graph, text: &str, parent: Serial) -> Answer {
    if !has_room(graph, parent) {
        return Answer::Beyond;
    }
    let Ok(name) = Name::read(text.as_bytes()) else {
        return Answer::Beyond;
    };
    let wanted = Some((parent, plain()));
    match graph.create_input(name, Kind::Tone, beep(), wanted) {
        Ok((serial, item)) => Answer::Made(serial, item),
        Err(fault) => Answer::Refused(fault),
    }
}

/// A plain item on top of the parent, which shows the child.
fn item(graph: &mut Graph, child: Serial, parent: Serial) -> Answer {
    if !has_room(graph, parent) {
        return Answer::Beyond;
    }
    match graph.add_item(parent, child, plain()) {
        Ok(item) => Answer::Number(u64::from(item.0)),
        Err(fault) => Answer::Refused(fault),
    }
}

fn duplicate(graph: &mut Graph, item: ItemId, parent: Serial, to: Serial) -> Answer {
    if !has_room(graph, to) {
        return Answer::Beyond;
    }
    match graph.duplicate_item(parent, item, to) {
        Ok(item) => Answer::Number(u64::from(item.0)),
        Err(fault) => Answer::Refused(fault),
    }
}

fn hold(graph: &mut Graph, serial: Serial) -> Answer {
    if graph.next_hold() >= 4000 {
        return Answer::Beyond;
    }
    match graph.hold(serial) {
        Ok(id) => Answer::Number(id),
        Err(fault) => Answer::Refused(fault),
    }
}

fn watch(graph: &mut Graph, serial: Serial) -> Answer {
    if graph.next_watch() >= 4000 {
        return Answer::Beyond;
    }
    match graph.watch(serial) {
        Ok(id) => Answer::Number(id),
        Err(fault) => Answer::Refused(fault),
    }
}

/// A frame of a number that isn't in flight.
fn frame(graph: &mut Graph, number: u64) -> Answer {
    if graph.release_frame(number).is_ok() {
        return Answer::Beyond;
    }
    match graph.hold_frame(number) {
        Ok(()) => Answer::Done,
        Err(fault) => Answer::Refused(fault),
    }
}

impl Stage {
    pub fn make(&mut self, making: Making, given: &Given<'_>) -> Answer {
        let to = Serial(u64::from(given.numbers[2]));
        match making {
            Making::Scene => scene(&mut self.graph, given.name),
            Making::Group => group(&mut self.graph, given.name, given.source()),
            Making::Tone => tone(&mut self.graph, given.name),
            Making::ShownTone => shown_tone(&mut self.graph, given.name, given.source()),
            Making::Item => item(&mut self.graph, given.source(), given.second()),
            Making::Duplicate => duplicate(&mut self.graph, given.item(), given.second(), to),
            Making::Hold => hold(&mut self.graph, given.source()),
            Making::Watch => watch(&mut self.graph, given.source()),
            Making::Frame => frame(&mut self.graph, given.number()),
        }
    }
}
