//! From an action to its line.
ghost use Rattle.std.specs.Prelude.{◌≡◌, ◌++◌, IfOk, codes, decimal, string_bytes};
ghost use Rattle.mix_script.specs.Lines.{line_text, arrival_text, said_text};

use crate::digits::is_unset;
use crate::escaping::escape;
use mix_base::{Bytes, Bytes32, ConnId, NoMemory, Text};
use mix_model::{Action, Message};
use std::alloc::Global;

/// The line of an action, without a line feed at its end.
pub fn line_of(alloc: Global, action: &Action) -> Result<Text, NoMemory>
    ensures value { IfOk result (λ line. line ≡ line_text action.now) }
{
    Text::from_string(action_line(alloc, action)?)
}

fn action_line(alloc: Global, action: &Action) -> Result<String, NoMemory>
    ensures { IfOk result (λ line. string_bytes line ≡ line_text action.now) }
{
    match action {
        Action::Arrive { challenge } => arrival_line(alloc, challenge),
        Action::Hear { conn, message } => message_line(alloc, *conn, message),
        Action::Poll { conn } => connection_line(alloc, "?c", *conn),
        Action::BatchNext { conn } => connection_line(alloc, "*c", *conn),
        Action::Leave { conn } => connection_line(alloc, "-c", *conn),
        Action::VideoTick => word_line(alloc, "v"),
        Action::AudioTick => word_line(alloc, "a"),
        Action::FrameDone { number } => frame_line(alloc, *number),
        Action::Destroy => word_line(alloc, "d"),
    }
}

/// A line that is one word.
fn word_line(alloc: Global, word: &str) -> Result<String, NoMemory>
    ensures { IfOk result (λ line. string_bytes line ≡ word.now) }
{
    Ok(String::from_str(alloc, word)?)
}

/// The line of a word about a connection.
fn connection_line(alloc: Global, word: &str, conn: ConnId) -> Result<String, NoMemory>
    ensures { IfOk result (λ line. string_bytes line ≡ word.now ++ decimal conn) }
{
    Ok(format!(in alloc; "{word}{}", conn.0)?)
}

fn frame_line(alloc: Global, number: u64) -> Result<String, NoMemory>
    ensures { IfOk result (λ line. string_bytes line ≡ codes "f " ++ decimal number) }
{
    Ok(format!(in alloc; "f {number}")?)
}

fn message_line(alloc: Global, conn: ConnId, message: &Message) -> Result<String, NoMemory>
    ensures { IfOk result (λ line. string_bytes line ≡ said_text conn message.now) }
{
    match message {
        Message::Text(text) => text_line(alloc, conn, text),
        Message::Binary(bytes) => bytes_line(alloc, conn, bytes),
    }
}

fn arrival_line(alloc: Global, challenge: &Bytes32) -> Result<String, NoMemory>
    ensures { IfOk result (λ line. string_bytes line ≡ arrival_text challenge.now) }
{
    if is_unset(&challenge.0) {
        return Ok(format!(in alloc; "+")?);
    }
    let digits = hex::encode(alloc, challenge.0.as_slice())?;
    Ok(format!(in alloc; "+ {digits}")?)
}

fn text_line(alloc: Global, conn: ConnId, text: &Text) -> Result<String, NoMemory>
    ensures { IfOk result (λ line. string_bytes line ≡ said_text conn (Message.Text text.now)) }
{
    let written = escape(alloc, text)?;
    let line = written_line(alloc, conn, written.as_str());
    drop(written);
    line
}

/// The line of a text that has its escapes.
fn written_line(alloc: Global, conn: ConnId, written: &str) -> Result<String, NoMemory>
    ensures { IfOk result (λ line. string_bytes line
        ≡ codes "<c" ++ (decimal conn ++ (codes " " ++ written.now))) }
{
    Ok(format!(in alloc; "<c{} {written}", conn.0)?)
}

fn bytes_line(alloc: Global, conn: ConnId, bytes: &Bytes) -> Result<String, NoMemory>
    ensures { IfOk result (λ line. string_bytes line ≡ said_text conn (Message.Binary bytes.now)) }
{
    let digits = hex::encode(alloc, bytes.as_slice())?;
    Ok(format!(in alloc; "#c{} {digits}", conn.0)?)
}
