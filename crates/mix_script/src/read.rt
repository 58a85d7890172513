//! From a line to its action.
ghost use Rattle.std.specs.Prelude.{◌≡◌, ◌≢◌, ◌↔◌, ◌<◌, IfOk, IfSome, length, position, drop};
ghost use Rattle.mix_script.specs.Lines.{action_of, lone_line, connection_line, is_space};
ghost use Rattle.mix_script.specs.Lines.{said, text_heard, binary_heard};
ghost use Rattle.mix_script.specs.Reading.{Reads};

use crate::BadLine;
use crate::digits::{read_bytes, read_challenge};
use crate::escaping::read_text;
use crate::number::{read_connection, read_number};
use mix_base::{Bytes32, ConnId};
use mix_model::{Action, Message};
use std::alloc::Global;

/// The action of a line, which is passed without its line feed.
pub fn read_line(alloc: Global, line: &[u8]) -> Result<Action, BadLine>
    ensures value { IfOk result (λ action. action_of line.now ≡ Ok action) }
    ensures form { result ≢ Err BadLine.NoMemory →
        (result ≡ Err BadLine.Form) ↔ (action_of line.now ≡ Err BadLine.Form) }
    ensures text { result ≢ Err BadLine.NoMemory →
        (result ≡ Err BadLine.Text) ↔ (action_of line.now ≡ Err BadLine.Text) }
{
    read_any(alloc, line)
}

fn read_any(alloc: Global, line: &[u8]) -> Result<Action, BadLine>
    ensures { Reads (action_of line.now) result }
{
    if line == b"+".as_slice() {
        return Ok(Action::Arrive {
            challenge: Bytes32([0; 32]),
        });
    }
    if line == b"v".as_slice() {
        return Ok(Action::VideoTick);
    }
    if line == b"a".as_slice() {
        return Ok(Action::AudioTick);
    }
    if line == b"d".as_slice() {
        return Ok(Action::Destroy);
    }
    read_lone(alloc, line)
}

/// A line of two bytes and what follows them, first of those without a connection.
fn read_lone(alloc: Global, line: &[u8]) -> Result<Action, BadLine>
    ensures { Reads (lone_line line.now) result }
{
    if let Some(digits) = line.strip_prefix(b"+ ".as_slice()) {
        let challenge = read_challenge(digits).ok_or(BadLine::Form)?;
        return Ok(Action::Arrive { challenge });
    }
    if let Some(digits) = line.strip_prefix(b"f ".as_slice()) {
        let number = read_number(digits, u64::MAX).ok_or(BadLine::Form)?;
        return Ok(Action::FrameDone { number });
    }
    read_of_connection(alloc, line)
}

fn read_of_connection(alloc: Global, line: &[u8]) -> Result<Action, BadLine>
    ensures { Reads (connection_line line.now) result }
{
    if let Some(rest) = line.strip_prefix(b"<c".as_slice()) {
        return hear_text(alloc, rest);
    }
    if let Some(rest) = line.strip_prefix(b"#c".as_slice()) {
        return hear_binary(alloc, rest);
    }
    if let Some(digits) = line.strip_prefix(b"?c".as_slice()) {
        let conn = read_connection(digits).ok_or(BadLine::Form)?;
        return Ok(Action::Poll { conn });
    }
    if let Some(digits) = line.strip_prefix(b"*c".as_slice()) {
        let conn = read_connection(digits).ok_or(BadLine::Form)?;
        return Ok(Action::BatchNext { conn });
    }
    if let Some(digits) = line.strip_prefix(b"-c".as_slice()) {
        let conn = read_connection(digits).ok_or(BadLine::Form)?;
        return Ok(Action::Leave { conn });
    }
    Err(BadLine::Form)
}

/// A number of a connection, a space and a text.
fn hear_text(alloc: Global, rest: &[u8]) -> Result<Action, BadLine>
    ensures { Reads (said text_heard rest.now) result }
{
    let at = first_space(rest).ok_or(BadLine::Form)?;
    let conn = read_connection(&rest[..at]).ok_or(BadLine::Form)?;
    let text = read_text(alloc, &rest[at + 1..])?;
    Ok(Action::Hear {
        conn,
        message: Message::Text(text),
    })
}

/// A number of a connection, a space and bytes.
fn hear_binary(alloc: Global, rest: &[u8]) -> Result<Action, BadLine>
    ensures { Reads (said binary_heard rest.now) result }
{
    let at = first_space(rest).ok_or(BadLine::Form)?;
    let conn = read_connection(&rest[..at]).ok_or(BadLine::Form)?;
    let bytes = read_bytes(alloc, &rest[at + 1..])?.ok_or(BadLine::Form)?;
    Ok(Action::Hear {
        conn,
        message: Message::Binary(bytes),
    })
}

fn first_space(rest: &[u8]) -> Option<usize>
    ensures at { result ≡ position is_space rest.now }
    ensures within { IfSome result (λ i. i < length rest.now) }
{
    rest.iter().position(|b| *b == b' ')
}
