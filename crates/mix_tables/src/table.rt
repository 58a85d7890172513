//! What is called for each line of a table.
use crate::cell;
use mix_base::NoMemory;
use std::alloc::Global;

/// What is called for each line of a table.
pub trait Table {
    /// What the call comes to that a line asks for, as a text.
    fn found(&self, alloc: Global, line: &str) -> Result<String, NoMemory>;

    /// What it is to come to: the first cell, where the table says nothing else.
    fn wanted<'a>(&self, line: &'a str) -> &'a str {
        cell(line, 0)
    }
}
