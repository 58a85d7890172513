//! The program bus: what the program shows, and how it goes from one scene to another.
#![tactic(auto)]

mod bus;
mod change;
pub mod laws;
mod program;

pub use bus::ProgramBus;
pub use change::BusChange;
