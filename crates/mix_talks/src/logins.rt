//! Answers of a login, and what is said first.
use crate::hearing::ZEROS;
use hex::FromHex;
use mix_base::{Bytes32, NoMemory, Text, TextFault};
use mix_events::{Said, said_text};
use mix_session::{Secret, Session, answer_for};
use mix_tables::{Table, cell, copied, decoded};
use std::alloc::Global;

/// Cells: the answer, the password, and the salt and the challenge in hexadecimal.
pub struct Logins;

impl Table for Logins {
    fn found(&self, alloc: Global, line: &str) -> Result<String, NoMemory> {
        let Some(password) = password(alloc, cell(line, 1))? else {
            return Ok(String::from_str(alloc, "no text")?);
        };
        let answer = answer_for(alloc, &password, &bytes32(line, 2), &bytes32(line, 3));
        drop(password);
        copied(alloc, answer?)
    }
}

fn password(alloc: Global, cell: &str) -> Result<Option<Text>, NoMemory> {
    let bytes = decoded(alloc, cell)?;
    match Text::read(alloc, bytes.as_slice()) {
        Ok(text) => Ok(Some(text)),
        Err(TextFault::NotUtf8) => Ok(None),
        Err(TextFault::NoMemory) => Err(NoMemory),
    }
}

/// The thirty-two bytes of a cell, and zeros where it has others.
fn bytes32(line: &str, place: usize) -> Bytes32 {
    match <[u8; 32] as FromHex>::from_hex(cell(line, place)) {
        Ok(bytes) => Bytes32(bytes),
        Err(_) => ZEROS,
    }
}

/// Cells: the text; what is said: `identified`, or `hello` to a session that is begun without a
/// secret, or with one: the password, the salt and the challenge.
pub struct Greetings;

impl Table for Greetings {
    fn found(&self, alloc: Global, line: &str) -> Result<String, NoMemory> {
        if cell(line, 1) == "identified" {
            return copied(alloc, said_text(alloc, &Said::Identified)?);
        }
        let challenge = bytes32(line, 4);
        if cell(line, 2).is_empty() {
            return greeting(alloc, None, &challenge);
        }
        let Some(password) = password(alloc, cell(line, 2))? else {
            return Ok(String::from_str(alloc, "no text")?);
        };
        let secret = Secret {
            password,
            salt: bytes32(line, 3),
        };
        let found = greeting(alloc, Some(&secret), &challenge);
        drop(secret);
        found
    }
}

/// What a session begins with.
fn greeting(
    alloc: Global,
    secret: Option<&Secret>,
    challenge: &Bytes32,
) -> Result<String, NoMemory> {
    let (session, said) = Session::start(alloc, secret, challenge)?;
    drop(session);
    let found = hello_text(alloc, &said);
    drop(said);
    found
}

fn hello_text(alloc: Global, said: &Said) -> Result<String, NoMemory> {
    match said {
        Said::Hello { .. } => copied(alloc, said_text(alloc, said)?),
        _ => Ok(String::from_str(alloc, "no hello")?),
    }
}
