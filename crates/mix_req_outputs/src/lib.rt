//! The requests on transitions, studio mode, recording, and the mixer itself.
#![tactic(auto)]

mod answering;
mod broadcasting;
pub mod laws;

pub use answering::{answer, most_events};
