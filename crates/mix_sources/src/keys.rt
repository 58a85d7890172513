//! The keys of settings, each with its type and its range.
ghost use Rattle.std.specs.Prelude.{◌≡◌, negsuc, pos};
ghost use Rattle.std.specs.Option.{option_copied};
ghost use Rattle.mix_base.specs.Json.{as_int};
ghost use Rattle.mix_json.specs.Fields.{in_range, typed};
ghost use Rattle.mix_sources.specs.Answers.{Answers, IsFault};
ghost use Rattle.mix_sources.specs.Keys.{bad, color_at, number_at, number_in, number_of};
ghost use Rattle.mix_sources.specs.Keys.{or_standing, side_at, speed_at, speed_of, text_at};

use crate::fault::{BadSetting, SettingFault};
use mix_base::{Json, JsonObj, NoMemory, Text};
use std::alloc::Global;

const WRONG_TYPE: u16 = 401;

const OUT_OF_RANGE: u16 = 402;

/// The fault of a key.
pub fn bad(alloc: Global, key: &str, status: u16) -> SettingFault
    ensures value { IsFault result (bad key.now status) }
{
    match Text::from_str(alloc, key) {
        Ok(key) => SettingFault::Bad(BadSetting { key, status }),
        Err(NoMemory) => SettingFault::NoMemory,
    }
}

fn whole(value: &Json) -> Result<i64, u16>
    ensures value { result ≡ typed as_int value.now }
{
    match value {
        Json::Int(number) => Ok(*number),
        _ => Err(WRONG_TYPE),
    }
}

fn number_in(value: i64, least: u32, most: u32) -> Result<u32, u16>
    ensures value { result ≡ number_in least most value }
{
    if i64::from(least) <= value && value <= i64::from(most) {
        Ok(value as u32)
    } else {
        Err(OUT_OF_RANGE)
    }
}

fn number_or(value: Option<&Json>, least: u32, most: u32, standing: u32) -> Result<u32, u16>
    ensures value { result ≡
        or_standing standing (number_of least most) (option_copied value.entry) }
{
    match value {
        None => Ok(standing),
        Some(value) => number_in(whole(value)?, least, most),
    }
}

/// A number from the least to the most, or the one that stands where the key is missing.
#[tactic(auto, unfolding(crate::specs::Keys::number_at))]
pub fn number_at(
    alloc: Global,
    given: &JsonObj,
    key: &str,
    least: u32,
    most: u32,
    standing: u32,
) -> Result<u32, SettingFault>
    ensures value { Answers result (number_at key.now least most standing given.now) }
{
    match number_or(given.get(key), least, most, standing) {
        Ok(number) => Ok(number),
        Err(status) => Err(bad(alloc, key, status)),
    }
}

/// A colour.
#[tactic(auto, unfolding(crate::specs::Keys::color_at))]
pub fn color_at(
    alloc: Global,
    given: &JsonObj,
    key: &str,
    standing: u32,
) -> Result<u32, SettingFault>
    ensures value { Answers result (color_at key.now standing given.now) }
{
    number_at(alloc, given, key, 0, u32::MAX, standing)
}

/// A number of pixels: of a side, a square or a bar.
#[tactic(auto, unfolding(crate::specs::Keys::side_at))]
pub fn side_at(
    alloc: Global,
    given: &JsonObj,
    key: &str,
    standing: u32,
) -> Result<u32, SettingFault>
    ensures value { Answers result (side_at key.now standing given.now) }
{
    number_at(alloc, given, key, 1, 4096, standing)
}

fn speed_in(value: i64) -> Result<i32, u16>
    ensures value { result ≡ in_range (negsuc 63) (pos 64) value }
{
    if -64 <= value && value <= 64 {
        Ok(value as i32)
    } else {
        Err(OUT_OF_RANGE)
    }
}

fn speed_or(value: Option<&Json>, standing: i32) -> Result<i32, u16>
    ensures value { result ≡ or_standing standing speed_of (option_copied value.entry) }
{
    match value {
        None => Ok(standing),
        Some(value) => speed_in(whole(value)?),
    }
}

/// A speed.
#[tactic(auto, unfolding(crate::specs::Keys::speed_at))]
pub fn speed_at(
    alloc: Global,
    given: &JsonObj,
    key: &str,
    standing: i32,
) -> Result<i32, SettingFault>
    ensures value { Answers result (speed_at key.now standing given.now) }
{
    match speed_or(given.get(key), standing) {
        Ok(speed) => Ok(speed),
        Err(status) => Err(bad(alloc, key, status)),
    }
}

/// A text, where the key is there.
#[tactic(auto, unfolding(crate::specs::Keys::text_at))]
pub fn text_at(alloc: Global, given: &JsonObj, key: &str) -> Result<Option<Text>, SettingFault>
    ensures value { Answers result (text_at key.now given.now) }
{
    match given.get(key) {
        None => Ok(None),
        Some(Json::Text(text)) => Ok(Some(text.share()?)),
        Some(_) => Err(bad(alloc, key, WRONG_TYPE)),
    }
}
