//! JSON texts: reading them, writing them, and the fields of a request.
#![tactic(auto)]

mod fields;
mod json_text;
mod number;
mod object;
mod pieces;
mod reader;
mod reading;
mod tokens;
mod tree;
mod writing;

pub use fields::{
    in_range, need_bool, need_int, need_kept, need_obj, need_text, opt_bool, opt_int, opt_obj,
    opt_text,
};
pub use json_text::JsonText;
pub use reader::JsonReader;
pub use reading::{JsonFault, read};
pub use tree::{Fields, Items};
pub use writing::write;
