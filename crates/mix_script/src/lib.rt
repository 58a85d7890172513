//! The lines of a script, which are a history's actions in writing, and the lines that are written
//! for answers.
#![tactic(auto)]

mod bad_line;
mod block_text;
mod digits;
mod escaping;
mod laws;
mod length;
mod number;
mod output;
mod picture_text;
mod read;
mod shown;
mod write;
mod write_fault;

pub use bad_line::BadLine;
pub use laws::lines_and_actions_stand_one_to_one;
pub use length::line_length;
pub use output::write_reply;
pub use read::read_line;
pub use shown::Shown;
pub use write::line_of;
pub use write_fault::WriteFault;
