//! The open connections: who listens, what waits for each, and what each is told.
#![tactic(auto)]

mod audience;
mod member;
mod members;

pub use audience::Audience;
