//! The sources of a mixer as rows, names, holders and marks, in which everything is found by search.
#![tactic(auto)]

mod added;
mod created;
mod destroyed;
mod edits;
mod frames;
mod held;
mod held_by;
mod inputs;
mod kept;
mod looks;
mod moved;
mod reached;
mod refused;
mod removed;
mod row_edit;
mod search;
mod settle;
mod shown;
mod sources;
mod tally;
mod told;

pub use added::spec_of;
pub use edits::Edit;
pub use row_edit::{ItemEdit, RowEdit};
pub use sources::{Channel, Sources};
pub use tally::Tally;
