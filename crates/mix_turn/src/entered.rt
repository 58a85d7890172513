//! Entries of a history, with who made them.
use mix_base::PassNo;
use std::collections::LinkedList;

/// An entry, with the pass that made it and its number among that pass's own entries.
#[derive(Drop)]
pub struct Entered<E> {
    pub from: PassNo,
    pub entry: E,
}

/// A pass's number, and its own entries in order. No value of it is made.
pub struct PassEntries<E> {
    pub pass: u32,
    pub entries: LinkedList<E>,
}
