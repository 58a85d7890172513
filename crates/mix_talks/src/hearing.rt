//! What messages come to.
use mix_base::{Bytes, Bytes32, NoMemory, Text, TextFault};
use mix_events::Said;
use mix_json::JsonReader;
use mix_model::{Action, Message};
use mix_script::{BadLine, read_line};
use mix_session::{Heard, Secret, Session};
use mix_tables::{Table, cell, pieces};
use std::alloc::Global;

pub const ZEROS: Bytes32 = Bytes32([0; 32]);

/// A session in each of three situations: fresh, one that has to know a secret, and one that is
/// identified.
#[derive(Drop)]
pub struct Situations {
    fresh: Session,
    secret: Session,
    identified: Session,
}

impl Situations {
    pub fn new(alloc: Global) -> Result<Situations, NoMemory> {
        let fresh = fresh(alloc)?;
        let Ok(secret) = secret(alloc) else {
            drop(fresh);
            return Err(NoMemory);
        };
        let Ok(identified) = identified(alloc) else {
            drop(fresh);
            drop(secret);
            return Err(NoMemory);
        };
        Ok(Situations {
            fresh,
            secret,
            identified,
        })
    }

    fn session(&self, situation: &str) -> &Session {
        if situation == "identified" {
            &self.identified
        } else if situation == "secret" {
            &self.secret
        } else {
            &self.fresh
        }
    }
}

/// A session of which nothing was heard yet.
pub fn fresh(alloc: Global) -> Result<Session, NoMemory> {
    let (session, hello) = Session::start(alloc, None, &ZEROS)?;
    drop(hello);
    Ok(session)
}

fn secret(alloc: Global) -> Result<Session, NoMemory> {
    let secret = Secret {
        password: Text::from_str(alloc, "hunter2")?,
        salt: ZEROS,
    };
    let started = Session::start(alloc, Some(&secret), &ZEROS);
    drop(secret);
    let (session, hello) = started?;
    drop(hello);
    Ok(session)
}

fn identified(alloc: Global) -> Result<Session, NoMemory> {
    let mut session = fresh(alloc)?;
    let heard = Heard::Say {
        said: Said::Identified,
        mask: 0,
    };
    session.take(&heard);
    drop(heard);
    Ok(session)
}

/// The code that a message is closed with, or else the op of its answer.
fn answered(alloc: Global, session: &Session, message: &Message) -> Result<String, NoMemory> {
    let heard = heard_by(alloc, session, message)?;
    let number = number_of(&heard);
    drop(heard);
    Ok(format!(in alloc; "{number}")?)
}

fn number_of(heard: &Heard) -> u16 {
    match heard {
        Heard::Close(code) => *code,
        Heard::Say { .. } => 2,
        Heard::Ask(_) => 7,
        Heard::Batch(_) => 9,
    }
}

/// What another program said. Cells: the situation, the message as it stands in a line of a script,
/// and the line of the output.
#[derive(Drop)]
pub struct Hearing<'a>(pub &'a Situations);

impl Table for Hearing<'_> {
    fn found(&self, alloc: Global, line: &str) -> Result<String, NoMemory> {
        let Some(message) = said_in(alloc, cell(line, 1))? else {
            return Ok(String::from_str(alloc, "no line")?);
        };
        let found = answered(alloc, self.0.session(cell(line, 0)), &message);
        drop(message);
        found
    }

    /// The code, or the op that ends the text.
    fn wanted<'a>(&self, line: &'a str) -> &'a str {
        let said = cell(line, 2);
        match said.strip_prefix("!c1 ") {
            Some(code) => code,
            None => op_at_end(said),
        }
    }
}

/// The number that ends the text of an object.
fn op_at_end(text: &str) -> &str {
    match text.rsplit_once(':') {
        Some((_, end)) => end.strip_suffix('}').unwrap_or(end),
        None => text,
    }
}

/// The message of a line of a script, by what stands there for it.
fn said_in(alloc: Global, message: &str) -> Result<Option<Message>, NoMemory> {
    let line = format!(in alloc; "<c1 {message}")?;
    match read_line(alloc, line.as_str().as_bytes()) {
        Ok(Action::Hear { message, .. }) => Ok(Some(message)),
        Ok(other) => {
            drop(other);
            Ok(None)
        }
        Err(BadLine::NoMemory) => Err(NoMemory),
        Err(_) => Ok(None),
    }
}

/// Cells: the code or the op, the situation, `text` or `binary`, and the pieces of the message.
#[derive(Drop)]
pub struct Messages<'a>(pub &'a Situations);

impl Table for Messages<'_> {
    fn found(&self, alloc: Global, line: &str) -> Result<String, NoMemory> {
        let Some(message) = message(alloc, cell(line, 2), pieces(alloc, line, 3)?)? else {
            return Ok(String::from_str(alloc, "no text")?);
        };
        let found = answered(alloc, self.0.session(cell(line, 1)), &message);
        drop(message);
        found
    }
}

fn message(alloc: Global, form: &str, bytes: Vec<u8>) -> Result<Option<Message>, NoMemory> {
    if form == "binary" {
        return Ok(Some(Message::Binary(Bytes::from_vec(bytes))));
    }
    match Text::read(alloc, bytes.as_slice()) {
        Ok(text) => Ok(Some(Message::Text(text))),
        Err(TextFault::NotUtf8) => Ok(None),
        Err(TextFault::NoMemory) => Err(NoMemory),
    }
}

/// What a session hears of a text.
pub fn hear(alloc: Global, session: &Session, text: &str) -> Result<Heard, NoMemory> {
    let message = Message::Text(Text::from_str(alloc, text)?);
    let heard = heard_by(alloc, session, &message);
    drop(message);
    heard
}

/// What a session hears of a message, with a reader of its own.
fn heard_by(alloc: Global, session: &Session, message: &Message) -> Result<Heard, NoMemory> {
    let mut reader = JsonReader::new(alloc)?;
    let heard = session.hear(alloc, &mut reader, message);
    drop(reader);
    heard
}

impl Situations {
    /// What the identified session hears of a text.
    pub fn hear(&self, alloc: Global, text: &str) -> Result<Heard, NoMemory> {
        hear(alloc, &self.identified, text)
    }
}
