//! Lines of a script both ways.
use mix_base::{ConnId, NoMemory};
use mix_model::{Action, Message};
use mix_script::{BadLine, line_length, line_of, read_line};
use mix_tables::{Table, cell, decoded, quoted};
use std::alloc::Global;

/// Cells: what the action of a line is, its number, and its text as JSON or its bytes in hexadecimal,
/// or else `form` or `text` for what is wrong with it; then the line.
pub struct Lines;

impl Table for Lines {
    fn found(&self, alloc: Global, line: &str) -> Result<String, NoMemory> {
        let bytes = decoded(alloc, cell(line, 1))?;
        match read_line(alloc, bytes.as_slice()) {
            Ok(action) => {
                let found = both_ways(alloc, &action, bytes.as_slice());
                drop(action);
                found
            }
            Err(BadLine::Form) => Ok(String::from_str(alloc, "form")?),
            Err(BadLine::Text) => Ok(String::from_str(alloc, "text")?),
            Err(BadLine::NoMemory) => Err(NoMemory),
        }
    }
}

/// What an action is, where its line has these bytes and is as long as it says.
fn both_ways(alloc: Global, action: &Action, bytes: &[u8]) -> Result<String, NoMemory> {
    let back = line_of(alloc, action)?;
    let same = back.bytes() == bytes;
    drop(back);
    let length = bytes.len() as u64;
    if same && line_length(action) == length.saturating_add(1) {
        parts(alloc, action)
    } else {
        Ok(String::from_str(alloc, "another line")?)
    }
}

fn parts(alloc: Global, action: &Action) -> Result<String, NoMemory> {
    match action {
        Action::Arrive { challenge } => digits(alloc, "arrive", 0, challenge.0.as_slice()),
        Action::Hear { conn, message } => heard(alloc, *conn, message),
        Action::Poll { conn } => numbered(alloc, "poll", u64::from(conn.0)),
        Action::BatchNext { conn } => numbered(alloc, "batch next", u64::from(conn.0)),
        Action::Leave { conn } => numbered(alloc, "leave", u64::from(conn.0)),
        Action::VideoTick => numbered(alloc, "video", 0),
        Action::AudioTick => numbered(alloc, "audio", 0),
        Action::FrameDone { number } => numbered(alloc, "frame", *number),
        Action::Destroy => numbered(alloc, "destroy", 0),
    }
}

fn heard(alloc: Global, conn: ConnId, message: &Message) -> Result<String, NoMemory> {
    match message {
        Message::Text(text) => {
            let text = quoted(alloc, text)?;
            Ok(format!(in alloc; "text {} {text}", conn.0)?)
        }
        Message::Binary(bytes) => digits(alloc, "binary", u64::from(conn.0), bytes.as_slice()),
    }
}

fn digits(alloc: Global, word: &str, number: u64, bytes: &[u8]) -> Result<String, NoMemory> {
    let digits = hex::encode(alloc, bytes)?;
    Ok(format!(in alloc; "{word} {number} {digits}")?)
}

fn numbered(alloc: Global, word: &str, number: u64) -> Result<String, NoMemory> {
    Ok(format!(in alloc; "{word} {number}")?)
}
