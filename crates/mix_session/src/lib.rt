//! What is said to a connection and what its messages ask for: the sessions of obs-websocket 5.
#![tactic(auto)]

mod close;
mod fault;
mod fields;
mod heard;
mod identify;
mod login;
mod op;
mod request;
mod secret;
mod session;

pub use heard::Heard;
pub use login::answer_for;
pub use secret::Secret;
pub use session::Session;
