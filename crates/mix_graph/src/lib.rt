//! The sources of a mixer: rows and names, what holds them, what is active, and what dies.
#![tactic(auto)]

mod asked;
mod creating;
mod destroyed;
mod edits;
mod frames;
mod graph;
mod holds;
mod items;
mod shape;
mod tree;

pub use edits::Rename;
pub use graph::{Graph, Missing};
pub use mix_model::{Change, GraphFault, ItemSpec};
