//! What is said of a case.
ghost use Rattle.std.specs.Prelude.{◌≡◌, ◌++◌, IfOk, None, codes};

use crate::case::Case;
use crate::difference::{Difference, Place};
use crate::run::Left;
use std::alloc::{AllocError, Global};

/// A text that grows.
fn say(text: &mut Vec<u8>, piece: &str) -> Result<(), AllocError> {
    text.extend_from_slice(piece.as_bytes())
}

/// What a text has from a place on.
fn rest_of(text: &[u8], start: usize) -> &[u8] {
    match text.get(start..) {
        Some(rest) => rest,
        None => &[],
    }
}

/// How much of a text stands before its first line feed.
fn line_of(text: &[u8]) -> &[u8] {
    match text.iter().position(|byte| *byte == b'\n') {
        Some(end) => &text[..end],
        None => text,
    }
}

/// The line with which a text begins, behind a word. Where the text has no line there, or no line
/// feed behind it, this is said.
fn say_line(text: &mut Vec<u8>, word: &str, rest: &[u8]) -> Result<(), AllocError> {
    let line = line_of(rest);
    say(text, word)?;
    text.extend_from_slice(line)?;
    if line.len() < rest.len() {
        say(text, "\n")
    } else if rest.is_empty() {
        say(text, "(nothing)\n")
    } else {
        say(text, " (without its line feed)\n")
    }
}

/// What is said of two texts that differ at a place.
fn differ_at(
    alloc: Global,
    what: &str,
    place: Place,
    wanted: &[u8],
    written: &[u8],
) -> Result<Vec<u8>, AllocError> {
    let line = place.line;
    let head = format!(in alloc; ": line {line} of its {what} differs\n")?;
    let mut text = Vec::from_slice(alloc, head.as_bytes())?;
    say_line(&mut text, "    wanted:  ", rest_of(wanted, place.start))?;
    say_line(&mut text, "    written: ", rest_of(written, place.start))?;
    Ok(text)
}

/// What is said of two statuses that differ.
fn differ(alloc: Global, wanted: u8, written: u8) -> Result<Vec<u8>, AllocError> {
    let text = format!(in alloc; ": status {wanted} was wanted, and it ended with {written}\n")?;
    Vec::from_slice(alloc, text.as_bytes())
}

/// What is said of a difference.
fn details(
    alloc: Global,
    case: &Case,
    left: &Left,
    found: Difference,
) -> Result<Vec<u8>, AllocError> {
    match found {
        Difference::Output(place) => differ_at(
            alloc,
            "output",
            place,
            case.output.as_slice(),
            left.output.held(),
        ),
        Difference::Record(place) => differ_at(
            alloc,
            "record",
            place,
            case.record.as_slice(),
            left.record.held(),
        ),
        Difference::Status => differ(alloc, case.status, left.status),
    }
}

/// The line on a case in which nothing differs.
fn ok(alloc: Global, name: &str) -> Result<Vec<u8>, AllocError>
    ensures value { IfOk result (λ text.
        text.items ≡ codes "ok " ++ (name.now ++ codes "\n")) }
{
    let text = format!(in alloc; "ok {name}\n")?;
    Vec::from_slice(alloc, text.as_bytes())
}

/// The text on a case in which something differs: its name and what differs.
fn differs(
    alloc: Global,
    name: &str,
    case: &Case,
    left: &Left,
    found: Difference,
) -> Result<Vec<u8>, AllocError> {
    let mut text = Vec::from_slice(alloc, name.as_bytes())?;
    text.extend_from_slice(details(alloc, case, left, found)?.as_slice())?;
    Ok(text)
}

/// The text on a case.
pub fn report(
    alloc: Global,
    name: &str,
    case: &Case,
    left: &Left,
    found: Option<Difference>,
) -> Result<Vec<u8>, AllocError>
    ensures ok { found ≡ None → IfOk result (λ text.
        text.items ≡ codes "ok " ++ (name.now ++ codes "\n")) }
{
    match found {
        None => ok(alloc, name),
        Some(found) => differs(alloc, name, case, left, found),
    }
}

/// What is said of a case whose files can't be read.
pub fn unread(alloc: Global, name: &str) -> Result<Vec<u8>, AllocError> {
    let text = format!(in alloc; "{name}: its files can't be read\n")?;
    Vec::from_slice(alloc, text.as_bytes())
}
