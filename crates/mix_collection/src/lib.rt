//! Reading a collection line by line.
#![tactic(auto)]

mod collection_fault;
mod feed;
mod fields;
mod head;
mod items;
pub mod laws;
mod lines;
mod login;
mod options;
mod reading;
mod registry;
mod sources;

pub use collection_fault::CollectionFault;
pub use reading::read_collection;
