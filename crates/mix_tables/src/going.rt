//! Going through a table, line by line.
use crate::{Table, Trouble};
use std::fs;

/// Goes through the table NAME.tsv, and writes how many of its lines hold; before that, each line
/// that doesn't. Empty lines and those that begin with `#` are no cases.
pub fn go<T: Table>(rt: &HostRuntime, name: &str, table: &T) -> Result<(), Trouble> {
    go_through(rt, name, name, table)
}

/// Goes through the table of a file.
pub fn go_through<T: Table>(
    rt: &HostRuntime,
    name: &str,
    file: &str,
    table: &T,
) -> Result<(), Trouble> {
    let text = table_text(rt, file)?;
    let mut all: u64 = 0;
    let mut held: u64 = 0;
    for (index, line) in text.as_str().lines().enumerate() {
        if is_case(line) {
            all = all.saturating_add(1);
            if holds(rt, name, index, line, table)? {
                held = held.saturating_add(1);
            }
        }
    }
    drop(text);
    println!(rt; "{name}: {held} of {all}")?;
    Ok(())
}

fn table_text(rt: &HostRuntime, file: &str) -> Result<String, Trouble> {
    let path = format!(in rt.alloc(); "{file}.tsv")?;
    Ok(fs::read_to_string(rt, path.as_str())?)
}

fn is_case(line: &str) -> bool {
    !line.is_empty() && !line.starts_with('#')
}

/// Whether a line holds; where it doesn't, that is written.
fn holds<T: Table>(
    rt: &HostRuntime,
    name: &str,
    index: usize,
    line: &str,
    table: &T,
) -> Result<bool, Trouble> {
    let wanted = table.wanted(line);
    let found = table.found(rt.alloc(), line)?;
    let same = found.as_str() == wanted;
    if !same {
        tell(rt, name, index, wanted, found.as_str())?;
    }
    drop(found);
    Ok(same)
}

/// Writes that a line doesn't hold. Lines are counted from 1.
fn tell(
    rt: &HostRuntime,
    name: &str,
    index: usize,
    wanted: &str,
    found: &str,
) -> Result<(), Trouble> {
    let line = index.saturating_add(1);
    println!(rt; "{name} line {line}: wanted {wanted}, found {found}")?;
    Ok(())
}
