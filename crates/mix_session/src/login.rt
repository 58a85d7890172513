//! How a connection logs in.
ghost use Rattle.std.specs.Prelude.{◌≡◌, ◌++◌, IfOk, string_bytes};
ghost use Rattle.std.specs.Option.{option_copied};
ghost use Rattle.mix_session.specs.Hear.{logs_in};
ghost use Rattle.mix_session.specs.Login.{answer_of, base64_of, digest_text};

use crate::close::{LOGIN_FAILED, WRONG_TYPE};
use crate::fields::present;
use base64::engine::general_purpose::STANDARD;
use mix_base::{Bytes32, Json, JsonObj, NoMemory, Text};
use sha2::{Digest, Sha256};
use std::alloc::{AllocError, Global};

/// The text that a connection gives as `authentication` when it identifies itself (obs-websocket 5).
pub fn answer_for(
    alloc: Global,
    password: &Text,
    salt: &Bytes32,
    challenge: &Bytes32,
) -> Result<Text, NoMemory>
    ensures value { IfOk result
        (λ answer. answer ≡ answer_of password.now salt.now challenge.now) }
{
    let salted = digest_with(alloc, password.bytes(), salt)?;
    let answer = digest_with(alloc, salted.as_bytes(), challenge);
    drop(salted);
    Text::from_string(answer?)
}

/// The base64 of the digest of a text and the base64 of thirty-two bytes.
fn digest_with(alloc: Global, text: &[u8], bytes: &Bytes32) -> Result<String, AllocError>
    ensures value { IfOk result
        (λ digest. string_bytes digest ≡ digest_text (text.now ++ base64_of bytes.now)) }
{
    let encoded = STANDARD.encode(alloc, &bytes.0)?;
    let mut hasher = Sha256::new();
    hasher.update(text);
    hasher.update(encoded.as_bytes());
    drop(encoded);
    let digest: [u8; 32] = hasher.finalize();
    STANDARD.encode(alloc, &digest)
}

/// Whether a connection gives the answer that is expected, if one is.
#[tactic(auto, unfolding(crate::specs::Hear::logs_in))]
pub fn logs_in(expected: Option<&Text>, fields: &JsonObj) -> Result<(), u16>
    ensures value { result ≡ logs_in (option_copied expected.entry) fields.now }
{
    let Some(expected) = expected else {
        return Ok(());
    };
    match present(fields, "authentication") {
        None => Err(LOGIN_FAILED),
        Some(Json::Text(given)) => {
            if given.as_str() == expected.as_str() {
                Ok(())
            } else {
                Err(LOGIN_FAILED)
            }
        }
        Some(_) => Err(WRONG_TYPE),
    }
}
