//! Questions.
use crate::answer::Answer;
use crate::forms::{Counting, Looking, Next};
use crate::given::Given;
use mix_base::{Serial, Text};
use mix_graph::Graph;
use std::alloc::Global;

fn find(alloc: Global, graph: &Graph, name: &str) -> Answer {
    let Ok(text) = Text::from_str(alloc, name) else {
        return Answer::Beyond;
    };
    let found = graph.find(&text);
    drop(text);
    Answer::Maybe(found)
}

fn item_at(graph: &Graph, index: u32, parent: Serial) -> Answer {
    match graph.item_at(parent, index) {
        Some(item) => Answer::Item(item),
        None => Answer::Maybe(None),
    }
}

/// The clock of the action in which it became active last; 0 where it never was.
fn since(graph: &Graph, serial: Serial) -> Answer {
    match graph.row(serial) {
        Some(view) => Answer::Number(view.since),
        None => Answer::Missing,
    }
}

/// A question on one source or item.
pub fn look(alloc: Global, graph: &Graph, looking: Looking, given: &Given<'_>) -> Answer {
    let serial = given.source();
    match looking {
        Looking::Find => find(alloc, graph, given.name),
        Looking::IsActive => Answer::Truth(graph.active(serial)),
        Looking::IsShowing => Answer::Truth(graph.showing(serial)),
        Looking::IsNamed => Answer::Truth(graph.named(serial)),
        Looking::IsThere => Answer::Truth(graph.row(serial).is_some()),
        Looking::ItemAt => item_at(graph, given.numbers[0], given.second()),
        Looking::Items => Answer::Items(serial),
        Looking::Since => since(graph, serial),
    }
}

fn channel(graph: &Graph, channel: u32) -> Answer {
    if channel >= 64 {
        return Answer::Beyond;
    }
    let (first, second) = graph.channel(channel);
    Answer::Channel(first, second)
}

/// What a watch yields: no watch, none, or a source.
fn query(graph: &Graph, watch: u64) -> Answer {
    match graph.query(watch) {
        Some(serial) => Answer::Maybe(serial),
        None => Answer::Missing,
    }
}

/// A question on all of them.
pub fn count(graph: &Graph, counting: Counting, given: &Given<'_>) -> Answer {
    match counting {
        Counting::Active => Answer::Active,
        Counting::Showing => Answer::Showing,
        Counting::Changes => Answer::Changes,
        Counting::Channel => channel(graph, given.numbers[0]),
        Counting::Preview => Answer::Maybe(graph.preview()),
        Counting::Query => query(graph, given.number()),
        Counting::Dying => Answer::Number(u64::from(graph.dying())),
        Counting::Frames => Answer::Number(graph.frames() as u64),
        Counting::Clock => Answer::Number(graph.clock()),
        Counting::Shape => {
            graph.has_shape();
            Answer::Done
        }
    }
}

/// A question on what comes next.
pub fn next(graph: &Graph, next: Next, given: &Given<'_>) -> Answer {
    let index = given.numbers[0];
    match next {
        Next::Serial => Answer::Number(graph.next_serial().0),
        Next::Hold => Answer::Number(graph.next_hold()),
        Next::Watch => Answer::Number(graph.next_watch()),
        Next::Row => Answer::Maybe(graph.row_after(given.source())),
        Next::Scene => Answer::Maybe(graph.scene_at(index)),
        Next::Input => Answer::Maybe(graph.input_at(index)),
    }
}
