//! A text within a line: a line feed would end the line, so it's written with a backslash.
ghost use Rattle.std.specs.Prelude.{◌≡◌, ◌++◌, ◌<◌, ◌≤◌, Some, None, false, drop, length};
ghost use Rattle.std.specs.Prelude.{IfOk, IfSome, MatchOption, OnOk, string_bytes};
ghost use Rattle.std.specs.List.{list_any};
ghost use Rattle.mix_script.specs.Escapes.{escaped, escaped_byte, unescaped, is_special, meaning};
ghost use Rattle.mix_script.specs.Escapes.{put_first, unescaped_after};
ghost use Rattle.mix_script.specs.Reading.{Reads};
ghost use Rattle.mix_script.specs.Lines.{text_of, or_text, in_utf8};

use crate::BadLine;
use memchr::memchr2;
use mix_base::{Bytes, ListOf, NoMemory, Text};
use std::alloc::Global;

/// Whether a byte of a text is written as two.
pub fn has_special(text: &[u8]) -> bool
    ensures { result ≡ list_any is_special text.now }
{
    memchr2(b'\\', b'\n', text).is_some()
}

/// A text as it stands in a line: a backslash is written twice, and a line feed as `\n`. One without
/// either is shared.
pub fn escape(alloc: Global, text: &Text) -> Result<Text, NoMemory>
    ensures value { IfOk result (λ written. written ≡ escaped text.now) }
{
    if has_special(text.bytes()) {
        Text::from_string(escape_special(alloc, text.as_str())?)
    } else {
        text.share()
    }
}

/// The same, byte by byte.
fn escape_special(alloc: Global, text: &str) -> Result<String, NoMemory>
    ensures value { IfOk result (λ written. string_bytes written ≡ escaped text.now) }
{
    let bytes = escape_bytes(alloc, text.as_bytes())?;
    match String::from_utf8(bytes) {
        Ok(written) => Ok(written),
        Err(_) => unreachable!(),
    }
}

fn escape_bytes(alloc: Global, text: &[u8]) -> Result<Vec<u8>, NoMemory>
    ensures { IfOk result (λ written. written.items ≡ escaped text.now) }
{
    let mut written = Vec::with_capacity(alloc, text.len())?;
    for byte in text {
        push_escaped(&mut written, *byte)?;
    }
    Ok(written)
}

fn push_escaped(written: &mut Vec<u8>, byte: u8) -> Result<(), NoMemory>
    ensures { OnOk result (written.new.items ≡ written.old.items ++ escaped_byte byte) }
{
    match byte {
        b'\\' => written.extend_from_slice(b"\\\\".as_slice())?,
        b'\n' => written.extend_from_slice(b"\\n".as_slice())?,
        _ => written.push(byte)?,
    }
    Ok(())
}

/// The text that an escaped one stands for, in UTF-8. One without a backslash is copied once.
pub fn read_text(alloc: Global, written: &[u8]) -> Result<Text, BadLine>
    ensures { Reads (text_of written.now) result }
{
    if !has_special(written) {
        return copy_text(alloc, written);
    }
    match unescape(alloc, written) {
        Ok(bytes) => take_text(bytes),
        Err(fault) => Err(fault),
    }
}

#[tactic(auto, using(mix_base::proofs::NameLemmas::utf8_tests))]
fn copy_text(alloc: Global, bytes: &[u8]) -> Result<Text, BadLine>
    ensures { Reads (in_utf8 (Some bytes.now)) result }
{
    match str::from_utf8(bytes) {
        Ok(text) => Ok(Text::from_str(alloc, text)?),
        Err(_) => Err(BadLine::Text),
    }
}

#[tactic(auto, using(mix_base::proofs::NameLemmas::utf8_tests))]
fn take_text(bytes: Bytes) -> Result<Text, BadLine>
    ensures { Reads (in_utf8 (Some bytes)) result }
{
    match String::from_utf8(bytes.into_vec()) {
        Ok(text) => Ok(Text::from_string(text)?),
        Err(_) => Err(BadLine::Text),
    }
}

/// What a backslash and a byte stand for.
fn meaning(byte: u8) -> Option<u8>
    ensures { result ≡ meaning byte }
{
    match byte {
        b'\\' => Some(b'\\'),
        b'n' => Some(b'\n'),
        _ => None,
    }
}

/// The byte that comes next in an escaped text, and where the text goes on behind it.
#[inline(always)]
#[tactic(auto, using(crate::proofs::EscapeLemmas::bytes_in_turn))]
fn byte_at(written: &[u8], at: usize) -> Option<(u8, usize)>
    requires within { at < length written.now }
    ensures value { MatchOption result (unescaped_after false (drop at written.now) ≡ None)
        (λ r. unescaped_after false (drop at written.now)
        ≡ put_first (Some r.0) (unescaped_after false (drop r.1 written.now))) }
    ensures on { IfSome result (λ r. (at < r.1) × (r.1 ≤ length written.now)) }
{
    let byte = written[at];
    if byte == b'\n' {
        return None;
    }
    if byte != b'\\' {
        return Some((byte, at + 1));
    }
    if at + 1 == written.len() {
        return None;
    }
    match meaning(written[at + 1]) {
        Some(meant) => Some((meant, at + 2)),
        None => None,
    }
}

/// The bytes that escaped ones stand for.
fn unescape(alloc: Global, written: &[u8]) -> Result<Bytes, BadLine>
    ensures { Reads (or_text (unescaped written.now)) result }
{
    let mut bytes = Vec::with_capacity(alloc, written.len())?;
    let mut at = 0;
    'left: while at < written.len() {
        let Some((byte, next)) = byte_at(written, at) else {
            return Err(BadLine::Text);
        };
        bytes.push_reserved(byte);
        at = next;
    }
    Ok(ListOf::from_vec(bytes))
}
