//! What a connection has been told and has named, and what its messages come to.
ghost use Rattle.std.specs.Prelude.{◌≡◌, None, Some, IfOk, IfErr, option_map};
ghost use Rattle.std.specs.Option.{option_copied};
ghost use Rattle.mix_session.specs.Hear.{hear, message_of, of_kind, text_heard};
ghost use Rattle.mix_session.specs.SessionState.{hello, mask_after, secret_of};
ghost use Rattle.mix_session.specs.Table.{Answers};

use crate::close::{NOT_DECODED, UNKNOWN_OP};
use crate::fault::Fault;
use crate::fields::{object_at, whole_at};
use crate::heard::Heard;
use crate::identify::{identify, reidentify};
use crate::login::answer_for;
use crate::op::Op;
use crate::request::{batch, request};
use crate::secret::Secret;
use mix_base::{Bytes32, Json, JsonObj, NoMemory, Text};
use mix_events::{Login, Said};
use mix_json::{JsonFault, JsonReader};
use mix_model::Message;
use std::alloc::Global;
use std::marker::Model;

/// The most bytes of a text.
const MOST_BYTES: usize = 1_048_576;

/// What a connection has been told and has named. It may say nothing else before it is identified:
///
/// ```text
/// start --Hello--> unidentified --Identify--> identified --Reidentify--> identified
/// ```
#[derive(Drop)]
pub struct Session {
    secret: Option<Secret>,
    challenge: Bytes32,
    /// The answer of a login, made once.
    expected: Option<Text>,
    mask: Option<u32>,
}

impl Model for Session {
    ghost use Rattle.std.specs.Prelude.{◌≡◌, option_map};
    ghost use Rattle.mix_session.specs.Hear.{expected_of};
    ghost use Rattle.mix_session.specs.SessionState.{SessionState, secret_of};

    ghost Value = { SessionState };

    ghost view = { λ session. record {
      secret = option_map secret_of session.secret;
      challenge = session.challenge;
      mask = session.mask;
    } };

    ghost invariant = { λ session.
        session.expected ≡ expected_of (option_map secret_of session.secret) session.challenge };
}

impl Session {
    /// Begins a session, and says Hello. The challenge is to be one that nobody foresees.
    pub fn start(
        alloc: Global,
        secret: Option<&Secret>,
        challenge: &Bytes32,
    ) -> Result<(Session, Said), NoMemory>
        ensures secret { IfOk result
            (λ made. made.0.secret ≡ option_map secret_of (option_copied secret.entry)) }
        ensures challenge { IfOk result (λ made. made.0.challenge ≡ challenge.now) }
        ensures mask { IfOk result (λ made. made.0.mask ≡ None) }
        ensures reply { IfOk result (λ made.
            made.1 ≡ hello (option_map secret_of (option_copied secret.entry)) challenge.now) }
    {
        match secret {
            None => Ok((
                Session {
                    secret: None,
                    challenge: *challenge,
                    expected: None,
                    mask: None,
                },
                Said::Hello { login: None },
            )),
            Some(secret) => {
                let expected = answer_for(alloc, &secret.password, &secret.salt, challenge)?;
                let Ok(shared) = secret.share() else {
                    drop(expected);
                    return Err(NoMemory);
                };
                let login = Login {
                    salt: secret.salt,
                    challenge: *challenge,
                };
                Ok((
                    Session {
                        secret: Some(shared),
                        challenge: *challenge,
                        expected: Some(expected),
                        mask: None,
                    },
                    Said::Hello { login: Some(login) },
                ))
            }
        }
    }

    /// What a message comes to. The session stays as it is until the outcome is taken. The reader
    /// lends the room that reading takes.
    pub fn hear(
        &self,
        alloc: Global,
        reader: &mut JsonReader,
        message: &Message,
    ) -> Result<Heard, NoMemory>
        ensures reply { IfOk result (λ heard.
            heard ≡ hear self.now.secret self.now.challenge self.now.mask message.now) }
    {
        let Message::Text(text) = message else {
            return Ok(Heard::Close(NOT_DECODED));
        };
        match heard_text(alloc, reader, self.expected.as_ref(), self.mask, text) {
            Ok(heard) => Ok(heard),
            Err(Fault::Close(code)) => Ok(Heard::Close(code)),
            Err(Fault::NoMemory) => Err(NoMemory),
        }
    }

    /// Takes what a message came to: what is said at once brings its mask.
    pub fn take(&mut self, heard: &Heard)
        ensures state { self.new ≡ record self.old { mask = mask_after heard.now self.old.mask } }
    {
        if let Heard::Say { mask, .. } = heard {
            self.mask = Some(*mask);
        }
    }

    /// The events that the connection is told, once it is identified.
    pub fn mask(&self) -> Option<u32>
        ensures value { result ≡ self.now.mask }
    {
        self.mask
    }
}

/// The fields of a message.
#[tactic(auto, unfolding(crate::specs::Hear::message_of))]
fn message(reader: &mut JsonReader, text: &Text) -> Result<JsonObj, Fault>
    ensures value { Answers result (message_of text.now) }
{
    match reader.read(text.bytes()) {
        Ok(Json::Obj(fields)) => Ok(fields),
        Ok(other) => {
            drop(other);
            Err(Fault::Close(NOT_DECODED))
        }
        Err(JsonFault::NotJson) => Err(Fault::Close(NOT_DECODED)),
        Err(JsonFault::NoMemory) => Err(Fault::NoMemory),
    }
}

/// What a message of its kind comes to.
fn of_kind(
    alloc: Global,
    op: Op,
    expected: Option<&Text>,
    mask: Option<u32>,
    fields: JsonObj,
) -> Result<Heard, Fault>
    ensures value { Answers result (of_kind op (option_copied expected.entry) mask fields) }
{
    match op {
        Op::Identify => {
            let heard = identify(expected, mask, &fields);
            drop(fields);
            Ok(heard?)
        }
        Op::Reidentify => {
            let heard = reidentify(mask, &fields);
            drop(fields);
            Ok(heard?)
        }
        Op::Request => Ok(Heard::Ask(request(fields)?)),
        Op::RequestBatch => Ok(Heard::Batch(batch(alloc, fields)?)),
    }
}

/// What a text comes to.
#[tactic(auto, unfolding(crate::specs::Hear::text_heard))]
fn heard_text(
    alloc: Global,
    reader: &mut JsonReader,
    expected: Option<&Text>,
    mask: Option<u32>,
    text: &Text,
) -> Result<Heard, Fault>
    ensures value { Answers result (text_heard (option_copied expected.entry) mask text.now) }
{
    if text.bytes().len() > MOST_BYTES {
        return Err(Fault::Close(NOT_DECODED));
    }
    let message = message(reader, text)?;
    let number = match whole_at(&message, "op") {
        Ok(number) => number,
        Err(code) => {
            drop(message);
            return Err(Fault::Close(code));
        }
    };
    let fields = object_at(message, "d")?;
    let Some(op) = Op::of_number(number) else {
        drop(fields);
        return Err(Fault::Close(UNKNOWN_OP));
    };
    if let Err(code) = op.in_turn(mask) {
        drop(fields);
        return Err(Fault::Close(code));
    }
    of_kind(alloc, op, expected, mask, fields)
}
