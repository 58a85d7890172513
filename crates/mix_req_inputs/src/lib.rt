//! The requests on inputs.
#![tactic(auto)]

mod answering;
mod creating;
pub mod laws;
mod new_input;
mod telling;
mod wanted;

pub use answering::{answer, most_events};
