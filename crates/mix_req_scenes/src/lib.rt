//! The requests on scenes.
#![tactic(auto)]

mod answering;
mod changing;
mod creating;
pub mod laws;
mod listing;

pub use answering::{answer, most_events};
