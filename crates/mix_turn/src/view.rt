//! What the lock's rule knows of a pass.
use crate::entered::{Entered, PassEntries};
use std::collections::LinkedList;

/// What a pass remembers of its looks and tries at the lock's words: how many of each it made, and
/// the number that the last one found. It exists in proofs alone, and no value of it is made.
pub struct Tally {
    /// The looks at the serving number, and the number last looked at.
    pub looks: u64,
    pub serving: u64,
    /// The tries for a ticket, and the ticket last found.
    pub tries: u64,
    pub ticket: u64,
    /// The looks at the count of passes' numbers, and the count last looked at.
    pub counts: u64,
    pub looked: u64,
    /// The tries for a number of a pass, and the count last found.
    pub takes: u64,
    pub found: u64,
}

/// What a pass knows. It exists in proofs alone, and no value of it is made.
pub struct View<E, S> {
    pub start: Option<S>,
    pub number: u32,
    pub own: LinkedList<E>,
    pub joined: LinkedList<PassEntries<E>>,
    pub seen: LinkedList<Entered<E>>,
    pub shorter: LinkedList<Entered<E>>,
    pub full: bool,
    pub above: u64,
    pub parts: u64,
    pub spare: Option<u32>,
    pub tally: Tally,
    pub turn: bool,
    pub missed: u64,
}
