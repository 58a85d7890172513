//! What single lines of a collection say.
ghost use Rattle.std.specs.Prelude.{◌≡◌, ◌<◌, true, IfOk, IfSome, IsTrue, length, option_and_then};
ghost use Rattle.std.specs.List.{list_all};
ghost use Rattle.mix_base.specs.Names.{is_name};
ghost use Rattle.mix_base.specs.Rates.{is_rate};
ghost use Rattle.mix_model.specs.Fitting.{is_secret};
ghost use Rattle.mix_model.specs.Values.{is_canvas, is_format};
ghost use Rattle.mix_collection.specs.Collections.{canvas_in, rate_in, record_in, secret_in, name_in};
ghost use Rattle.mix_collection.specs.Collections.{two_items, only_item, picture_format, record_from};
ghost use Rattle.mix_collection.specs.Collections.{is_lower_digit, salt_from, secret_from, name_from};

use crate::fields::{list_behind, number_in, numbers_in, text_in};
use hex::FromHex;
use mix_base::{Bytes32, Json, Name, NoMemory, Rate, Text};
use std::alloc::Global;

#[tactic(auto, unfolding(mix_model::specs::Values::is_canvas))]
fn is_canvas(canvas: (u32, u32)) -> bool
    ensures value { result ≡ is_canvas canvas }
{
    let (width, height) = canvas;
    if width < 1 || width > 4096 || height < 1 || height > 4096 {
        return false;
    }
    width * height <= 2_088_960
}

fn is_rate(rate: Rate) -> bool
    ensures value { result ≡ is_rate rate }
{
    if rate.den < 1 || rate.den > 1001 {
        return false;
    }
    rate.den <= rate.num && rate.num <= 240 * rate.den
}

#[tactic(auto, unfolding(mix_model::specs::Values::is_format))]
fn is_format(canvas: (u32, u32), i420: bool, tracks: u32) -> bool
    ensures value { result ≡ is_format canvas i420 tracks }
    ensures few { result ≡ true → tracks < 256 }
{
    let (width, height) = canvas;
    if tracks < 1 || tracks > 63 {
        return false;
    }
    !i420 || (width & 1 == 0 && height & 1 == 0)
}

/// The canvas: width and height in pixels.
#[tactic(auto, unfolding(crate::specs::Collections::canvas_in))]
pub fn canvas_in(alloc: Global, line: &[u8]) -> Result<Option<(u32, u32)>, NoMemory>
    ensures value { IfOk result (λ canvas. canvas ≡ canvas_in line.now) }
    ensures valid { IfOk result (λ canvas. IfSome canvas (λ size. IsTrue (is_canvas size))) }
{
    let Some(items) = list_behind(alloc, b"canvas", line)? else {
        return Ok(None);
    };
    let canvas = numbers_in(items.as_slice());
    drop(items);
    match canvas {
        Some(canvas) if is_canvas(canvas) => Ok(Some(canvas)),
        _ => Ok(None),
    }
}

/// The frames of a second.
#[tactic(auto, unfolding(crate::specs::Collections::rate_in))]
pub fn rate_in(alloc: Global, line: &[u8]) -> Result<Option<Rate>, NoMemory>
    ensures value { IfOk result (λ rate. rate ≡ rate_in line.now) }
    ensures valid { IfOk result (λ rate. IfSome rate (λ r. IsTrue (is_rate r))) }
{
    let Some(items) = list_behind(alloc, b"rate", line)? else {
        return Ok(None);
    };
    let numbers = numbers_in(items.as_slice());
    drop(items);
    let Some((num, den)) = numbers else {
        return Ok(None);
    };
    let rate = Rate { num, den };
    if is_rate(rate) {
        Ok(Some(rate))
    } else {
        Ok(None)
    }
}

fn picture_format(text: &[u8]) -> Option<bool>
    ensures value { result ≡ picture_format text.now }
{
    if text == b"rgba".as_slice() {
        Some(false)
    } else if text == b"i420".as_slice() {
        Some(true)
    } else {
        None
    }
}

fn record_from(items: &[Json]) -> Option<(bool, u32)>
    ensures value { result ≡ option_and_then record_from (two_items items.now) }
{
    match items {
        [format, tracks] => {
            let i420 = picture_format(text_in(format)?.bytes())?;
            Some((i420, number_in(tracks)?))
        }
        _ => None,
    }
}

/// What is recorded of a canvas of this size: whether as I420, and which tracks.
#[tactic(auto, unfolding(crate::specs::Collections::record_in))]
pub fn record_in(
    alloc: Global,
    canvas: (u32, u32),
    line: &[u8],
) -> Result<Option<(bool, u8)>, NoMemory>
    ensures value { IfOk result (λ format. format ≡ record_in canvas line.now) }
    ensures valid { IfOk result
        (λ format. IfSome format (λ f. IsTrue (is_format canvas f.0 f.1))) }
{
    let Some(items) = list_behind(alloc, b"record", line)? else {
        return Ok(None);
    };
    let record = record_from(items.as_slice());
    drop(items);
    match record {
        Some((i420, tracks)) if is_format(canvas, i420, tracks) => {
            Ok(Some((i420, tracks as u8)))
        }
        _ => Ok(None),
    }
}

fn are_lower_digits(digits: &[u8]) -> bool
    ensures value { result ≡ list_all is_lower_digit digits.now }
{
    digits
        .iter()
        .all(|b| matches!(*b, b'0'..=b'9' | b'a'..=b'f'))
}

/// The salt that sixty-four digits in lower case write.
fn salt_from(digits: &[u8]) -> Option<Bytes32>
    ensures value { result ≡ salt_from digits.now }
    ensures long { IfSome result (λ salt. length salt ≡ 32) }
{
    if !are_lower_digits(digits) {
        return None;
    }
    let salt = <[u8; 32] as FromHex>::from_hex(digits).ok()?;
    Some(Bytes32(salt))
}

fn secret_from(items: &[Json]) -> Result<Option<(Text, Bytes32)>, NoMemory>
    ensures value { IfOk result
        (λ secret. secret ≡ option_and_then secret_from (two_items items.now)) }
    ensures valid { IfOk result (λ secret. IsTrue (is_secret secret)) }
{
    match items {
        [password, salt] => match (text_in(password), text_in(salt)) {
            (Some(password), Some(salt)) => match salt_from(salt.bytes()) {
                Some(salt) => Ok(Some((password.share()?, salt))),
                None => Ok(None),
            },
            _ => Ok(None),
        },
        _ => Ok(None),
    }
}

/// The password and the salt of a login.
#[tactic(auto, unfolding(crate::specs::Collections::secret_in))]
pub fn secret_in(alloc: Global, line: &[u8]) -> Result<Option<(Text, Bytes32)>, NoMemory>
    ensures value { IfOk result (λ secret. secret ≡ secret_in line.now) }
    ensures valid { IfOk result (λ secret. IsTrue (is_secret secret)) }
{
    match list_behind(alloc, b"secret", line)? {
        Some(items) => {
            let secret = secret_from(items.as_slice());
            drop(items);
            secret
        }
        None => Ok(None),
    }
}

/// The name that a text is.
pub fn name_from(value: &Json) -> Option<Name>
    ensures value { result ≡ name_from value.now }
    ensures valid { IfSome result (λ name. IsTrue (is_name name)) }
{
    Name::read(text_in(value)?.bytes()).ok()
}

fn only_name(items: &[Json]) -> Option<Name>
    ensures value { result ≡ option_and_then name_from (only_item items.now) }
    ensures valid { IfSome result (λ name. IsTrue (is_name name)) }
{
    match items {
        [value] => name_from(value),
        _ => None,
    }
}

/// The name that stands behind a word.
#[tactic(auto, unfolding(crate::specs::Collections::name_in))]
pub fn name_in(alloc: Global, word: &[u8], line: &[u8]) -> Result<Option<Name>, NoMemory>
    ensures value { IfOk result (λ name. name ≡ name_in word.now line.now) }
    ensures valid { IfOk result (λ name. IfSome name (λ n. IsTrue (is_name n))) }
{
    match list_behind(alloc, word, line)? {
        Some(items) => {
            let name = only_name(items.as_slice());
            drop(items);
            Ok(name)
        }
        None => Ok(None),
    }
}
