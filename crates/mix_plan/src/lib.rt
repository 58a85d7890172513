//! Flat lists of draws of the sources in a tree.
#![tactic(auto)]

mod listing;
mod plans;
mod rows;

pub use plans::plan;
