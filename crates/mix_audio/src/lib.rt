//! Mixing: a block of sound of the voices that are heard.
#![tactic(auto)]

pub mod laws;
mod mixing;
mod share;
mod sums;

pub use mixing::mix;
