//! One studio: its sources, its program and its clocks, and what becomes of them with each call.
#![tactic(auto)]

mod changes;
mod lines;
mod opening;
mod recording;
mod removing;
mod setup;
mod shots;
mod studio;
mod ticked;
mod ticks;

pub use setup::Setup;
pub use studio::Studio;
pub use ticked::Ticked;
