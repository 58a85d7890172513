//! The requests on items of scenes and groups.
#![tactic(auto)]

mod answering;
mod asking;
mod blending;
mod changing;
mod creating;
mod duplicating;
mod finding;
mod flags;
mod found;
pub mod laws;
mod numbers;
mod removing;

pub use answering::{answer, most_events};
