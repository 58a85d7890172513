//! The program as one call: a command's words, and the objects that it names.
#![tactic(auto)]

mod laws;
mod running;
mod starting;
mod top;

pub use laws::blocks_sound_as_found;
pub use starting::{Paths, Place, had, keep_apart, paths_of, words_of};
pub use top::{Status, run_offline};
