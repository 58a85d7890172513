//! The shape that the sources of every mixer have, kept by each edit, settling and destruction.
#![tactic(auto)]

pub mod laws;
mod new_item;

pub use new_item::NewItem;
