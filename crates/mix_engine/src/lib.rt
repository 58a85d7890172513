//! The engine: one step for each action, and a journal of all that was done.
#![tactic(auto)]

mod asking;
mod coming;
mod engine;
mod fault;
mod frames;
mod head;
mod heading;
mod hearing;
pub mod laws;
mod leaving;
mod letting_go;
mod mixing;
mod opening;
mod requests;
mod step_answer;

pub use engine::Engine;
pub use fault::{ActFault, Full};
pub use head::Head;
pub use heading::Heading;
pub use mix_studio::Setup;
pub use mixing::Mixing;
pub use step_answer::StepAnswer;
