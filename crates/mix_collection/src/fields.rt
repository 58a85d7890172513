//! The JSON lists behind the words of a line.
ghost use Rattle.std.specs.Prelude.{◌≡◌, IfOk, option_map, option_and_then};
ghost use Rattle.mix_base.specs.Json.{as_list, as_obj, as_text};
ghost use Rattle.mix_collection.specs.Collections.{behind, list_behind, list_of, number_in};
ghost use Rattle.mix_collection.specs.Collections.{two_items, only_item, numbers_in};

use mix_base::{Json, JsonList, JsonObj, NoMemory, Text};
use mix_json::JsonFault;
use std::alloc::Global;

/// What stands behind these bytes, where the line begins with them.
fn behind<'a>(head: &[u8], line: &'a [u8]) -> Option<&'a [u8]>
    ensures value { option_map (λ rest. rest.now) result ≡ behind head.now line.now }
{
    line.strip_prefix(head)
}

/// The items of the JSON list that a text writes.
#[tactic(auto, unfolding(crate::specs::Collections::list_of))]
fn list_of(alloc: Global, text: &[u8]) -> Result<Option<JsonList>, NoMemory>
    ensures value { IfOk result (λ list. list ≡ list_of text.now) }
{
    match mix_json::read(alloc, text) {
        Ok(Json::List(items)) => Ok(Some(items)),
        Ok(other) => {
            drop(other);
            Ok(None)
        }
        Err(JsonFault::NotJson) => Ok(None),
        Err(JsonFault::NoMemory) => Err(NoMemory),
    }
}

/// The items of the JSON list behind a word and one space.
#[tactic(auto, unfolding(crate::specs::Collections::list_behind))]
pub fn list_behind(alloc: Global, word: &[u8], line: &[u8]) -> Result<Option<JsonList>, NoMemory>
    ensures value { IfOk result (λ list. list ≡ list_behind word.now line.now) }
{
    let Some(rest) = behind(word, line) else {
        return Ok(None);
    };
    match behind(b" ", rest) {
        Some(text) => list_of(alloc, text),
        None => Ok(None),
    }
}

/// A whole number from 0 to 2^32 - 1.
pub fn number_in(value: &Json) -> Option<u32>
    ensures value { result ≡ number_in value.now }
{
    match value {
        Json::Int(number) => u32::try_from(*number).ok(),
        _ => None,
    }
}

/// A text.
pub fn text_in(value: &Json) -> Option<&Text>
    ensures value { option_map (λ text. text.now) result ≡ as_text value.now }
{
    match value {
        Json::Text(text) => Some(text),
        _ => None,
    }
}

/// An object.
pub fn object_in(value: &Json) -> Option<&JsonObj>
    ensures value { option_map (λ object. object.now) result ≡ as_obj value.now }
{
    match value {
        Json::Obj(object) => Some(object),
        _ => None,
    }
}

/// Exactly two whole numbers.
pub fn numbers_in(items: &[Json]) -> Option<(u32, u32)>
    ensures value { result ≡ option_and_then numbers_in (two_items items.now) }
{
    match items {
        [a, b] => Some((number_in(a)?, number_in(b)?)),
        _ => None,
    }
}
