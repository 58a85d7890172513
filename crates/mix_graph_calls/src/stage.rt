//! The graph that a scenario plays on.
use mix_base::Limits;
use mix_graph::Graph;
use std::alloc::Global;
use std::mem;

/// A graph on which a scenario plays.
#[derive(Drop)]
pub struct Stage {
    pub graph: Graph,
}

impl Stage {
    /// A graph without a source.
    pub fn new(alloc: Global) -> Stage {
        Stage {
            graph: Graph::new(alloc, Limits::standard()),
        }
    }

    /// Another scenario begins.
    pub fn restart(&mut self, alloc: Global) {
        let old = mem::replace(self, Stage::new(alloc));
        drop(old);
    }
}
