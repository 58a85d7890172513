//! How long a line is.
ghost use Rattle.std.specs.Prelude.{◌≡◌, ◌==◌, ◌+◌, ◌-◌, ◌≤◌, ◌^◌, length, min, decimal};
ghost use Rattle.std.specs.Prelude.{count_by};
ghost use Rattle.mix_script.specs.Escapes.{escaped, is_special};
ghost use Rattle.mix_script.specs.Lines.{line_text, arrival_text, said_text};

use crate::digits::is_unset;
use memchr::memchr2_iter;
use mix_base::{Bytes32, ConnId};
use mix_model::{Action, Message};
use std::simd::prelude::*;

/// The length of an action's line in bytes, with its line feed; 2^64 - 1 stands for all above it,
/// too. It takes no memory.
pub fn line_length(action: &Action) -> u64
    ensures value { result ≡ min (length (line_text action.now) + 1) (2 ^ 64 - 1) }
{
    match action {
        Action::Arrive { challenge } => arrival_length(challenge),
        Action::Hear { conn, message } => said_length(*conn, message),
        Action::Poll { conn } | Action::BatchNext { conn } | Action::Leave { conn } => {
            3 + decimal_length(u64::from(conn.0))
        }
        Action::FrameDone { number } => 3 + decimal_length(*number),
        Action::VideoTick | Action::AudioTick | Action::Destroy => 2,
    }
}

fn arrival_length(challenge: &Bytes32) -> u64
    ensures { result ≡ length (arrival_text challenge.now) + 1 }
{
    if is_unset(&challenge.0) { 2 } else { 67 }
}

#[tactic(auto, using(crate::proofs::LengthLemmas::said_lengths))]
fn said_length(conn: ConnId, message: &Message) -> u64
    ensures { result ≡ min (length (said_text conn message.now) + 1) (2 ^ 64 - 1) }
{
    let head = 4 + decimal_length(u64::from(conn.0));
    match message {
        Message::Text(text) => head.saturating_add(escaped_length(text.bytes())),
        Message::Binary(bytes) => head.saturating_add(2 * bytes.as_slice().len() as u64),
    }
}

#[tactic(auto, using(crate::proofs::EscapeLemmas::lengths))]
fn escaped_length(text: &[u8]) -> u64
    ensures { result ≡ length (escaped text.now) }
{
    text.len() as u64 + specials(text) as u64
}

/// How many bytes of a text are written as two, 64 bytes at a time.
fn specials(text: &[u8]) -> usize
    ensures value { result ≡ count_by is_special text.now }
    ensures within { result ≤ length text.now }
{
    let mut found = 0;
    let mut at = 0;
    'blocks: while text.len() - at >= 64 {
        found += specials_of(u8x64::from_slice(&text[at..]));
        at += 64;
    }
    found + specials_apart(&text[at..])
}

/// The same for one block.
#[inline(always)]
#[tactic(auto, using(crate::proofs::EscapeLemmas::counts))]
fn specials_of(block: u8x64) -> usize
    requires { length block ≡ 64 }
    ensures value { result ≡ count_by is_special block }
{
    count_in(block, b'\\') as usize + count_in(block, b'\n') as usize
}

/// How many bytes of a block are this one.
#[inline(always)]
fn count_in(block: u8x64, byte: u8) -> u32
    requires { length block ≡ 64 }
    ensures value { result ≡ count_by (λ b. b == byte) block }
    ensures within { result ≤ 64 }
{
    block.simd_eq(u8x64::splat(byte)).to_bitmask().count_ones()
}

/// The same for the bytes behind the last block, one by one.
fn specials_apart(text: &[u8]) -> usize
    ensures value { result ≡ count_by is_special text.now }
    ensures within { result ≤ length text.now }
{
    memchr2_iter(b'\\', b'\n', text).count()
}

/// How many decimal digits a number has.
fn decimal_length(number: u64) -> u64
    ensures value { result ≡ length (decimal number) }
    ensures within { result ≤ 20 }
{
    let mut left = number;
    let mut digits = 1;
    'digits: while left >= 10 {
        left /= 10;
        digits += 1;
    }
    digits
}
