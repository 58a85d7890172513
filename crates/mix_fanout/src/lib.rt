//! The texts that wait for connections: who is told of which event, in which order, and who is cut.
#![tactic(auto)]

mod fanout;
mod kept;
mod lane;
mod lanes;
mod store;
mod waiting;

pub use fanout::Fanout;
pub use waiting::Waiting;
