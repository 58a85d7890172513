//! Bytes as digits of base sixteen (RFC 4648), in lower case.
ghost use Rattle.std.specs.Prelude.{◌≡◌, IfOk};
ghost use Rattle.std.specs.List.{list_all};
ghost use Rattle.mix_script.specs.Hexadecimal.{bytes_of_digits, challenge_of_digits};
ghost use Rattle.mix_script.specs.Hexadecimal.{is_lower_digit, is_unset};

use hex::{FromHex, FromHexError};
use mix_base::{Bytes, Bytes32, ListOf, NoMemory};
use std::alloc::Global;

/// The bytes that digits write, where they're digits in lower case, two for each byte.
pub fn read_bytes(alloc: Global, digits: &[u8]) -> Result<Option<Bytes>, NoMemory>
    ensures { IfOk result (λ bytes. bytes ≡ bytes_of_digits digits.now) }
{
    if !are_lower_digits(digits) {
        return Ok(None);
    }
    match hex::decode(alloc, digits) {
        Ok(bytes) => Ok(Some(ListOf::from_vec(bytes))),
        Err(FromHexError::OutOfMemory) => Err(NoMemory),
        Err(_) => Ok(None),
    }
}

/// The challenge that digits write, where they're sixty-four in lower case and not all zero.
pub fn read_challenge(digits: &[u8]) -> Option<Bytes32>
    ensures { result ≡ challenge_of_digits digits.now }
{
    if !are_lower_digits(digits) {
        return None;
    }
    let challenge = <[u8; 32] as FromHex>::from_hex(digits).ok()?;
    if is_unset(&challenge) {
        None
    } else {
        Some(Bytes32(challenge))
    }
}

/// Whether a challenge is thirty-two zero bytes.
pub fn is_unset(challenge: &[u8; 32]) -> bool
    ensures { result ≡ is_unset challenge.now }
{
    challenge.iter().all(|b| *b == 0)
}

fn are_lower_digits(digits: &[u8]) -> bool
    ensures { result ≡ list_all is_lower_digit digits.now }
{
    digits
        .iter()
        .all(|b| matches!(*b, b'0'..=b'9' | b'a'..=b'f'))
}
