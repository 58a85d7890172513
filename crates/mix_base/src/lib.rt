//! Names, texts, numbers and limits, which every crate of the mixer shares.
#![tactic(auto)]

mod bytes32;
mod json;
mod limits;
mod list;
mod members;
mod name;
mod no_memory;
mod numbers;
mod rate;
mod shared;
mod shelf;
mod text;
mod uuids;

pub use bytes32::Bytes32;
pub use json::Json;
pub use limits::Limits;
pub use list::ListOf;
pub use members::{Member, Members};
pub use name::{Name, NameFault};
pub use no_memory::NoMemory;
pub use numbers::{ConnId, ItemId, Key, PassNo, Serial};
pub use rate::{Rate, frames_of};
pub use shared::SharedBytes;
pub use shelf::Shelf;
pub use text::{Text, TextFault};
pub use uuids::uuid_text;

/// Bytes as they come and go.
pub type Bytes = ListOf<u8>;
/// Numbers of calls, counted from 0.
pub type CallList = ListOf<u64>;
/// A list of JSON values.
pub type JsonList = ListOf<Json>;
/// A JSON object.
pub type JsonObj = Members<Json>;
