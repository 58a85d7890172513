//! The fields of a JSON object in a message, where null counts as missing.
ghost use Rattle.std.specs.Prelude.{◌≡◌};
ghost use Rattle.std.specs.Option.{option_copied};
ghost use Rattle.mix_base.specs.Json.{as_bool, as_int, as_list, as_obj, as_text, present};
ghost use Rattle.mix_session.specs.Fields.{body_of, list_at, needed, object_at, text_at};
ghost use Rattle.mix_session.specs.Fields.{text_if_there, truth_if_there, typed, whole_at};
ghost use Rattle.mix_session.specs.Fields.{whole_if_there};
ghost use Rattle.mix_session.specs.Table.{Answers, Gives};

use crate::close::{MISSING_FIELD, WRONG_TYPE};
use crate::fault::Fault;
use mix_base::{Json, JsonList, JsonObj, NoMemory, Text};
use mix_model::Body;

/// A field's value.
pub fn present<'a>(fields: &'a JsonObj, key: &str) -> Option<&'a Json>
    ensures value { option_copied result ≡ present key.now fields.now }
{
    match fields.get(key) {
        None | Some(Json::Null) => None,
        Some(value) => Some(value),
    }
}

/// The value of a field that is needed.
fn needed<'a>(fields: &'a JsonObj, key: &str) -> Result<&'a Json, u16>
    ensures value { Gives (λ value. value.now) result (needed key.now fields.now) }
{
    match present(fields, key) {
        None => Err(MISSING_FIELD),
        Some(value) => Ok(value),
    }
}

fn whole(value: &Json) -> Result<i64, u16>
    ensures value { result ≡ typed as_int value.now }
{
    match value {
        Json::Int(number) => Ok(*number),
        _ => Err(WRONG_TYPE),
    }
}

/// A text, held once more.
pub fn text(value: &Json) -> Result<Text, Fault>
    ensures value { Answers result (typed as_text value.now) }
{
    match value {
        Json::Text(text) => Ok(text.share()?),
        _ => Err(Fault::Close(WRONG_TYPE)),
    }
}

fn truth(value: &Json) -> Result<bool, u16>
    ensures value { result ≡ typed as_bool value.now }
{
    match value {
        Json::Bool(truth) => Ok(*truth),
        _ => Err(WRONG_TYPE),
    }
}

/// The fields of an object.
pub fn object(value: Json) -> Result<JsonObj, u16>
    ensures value { result ≡ typed as_obj value }
{
    match value {
        Json::Obj(fields) => Ok(fields),
        other => {
            drop(other);
            Err(WRONG_TYPE)
        }
    }
}

/// A whole number that is needed.
pub fn whole_at(fields: &JsonObj, key: &str) -> Result<i64, u16>
    ensures value { result ≡ whole_at key.now fields.now }
{
    let value = needed(fields, key)?;
    whole(value)
}

/// A text that is needed, held once more.
pub fn text_at(fields: &JsonObj, key: &str) -> Result<Text, Fault>
    ensures value { Answers result (text_at key.now fields.now) }
{
    let value = needed(fields, key)?;
    text(value)
}

/// A whole number, where there is one.
pub fn whole_if_there(fields: &JsonObj, key: &str) -> Result<Option<i64>, u16>
    ensures value { result ≡ whole_if_there key.now fields.now }
{
    match present(fields, key) {
        None => Ok(None),
        Some(value) => Ok(Some(whole(value)?)),
    }
}

/// A text, held once more, where there is one.
pub fn text_if_there(fields: &JsonObj, key: &str) -> Result<Option<Text>, Fault>
    ensures value { Answers result (text_if_there key.now fields.now) }
{
    match present(fields, key) {
        None => Ok(None),
        Some(value) => Ok(Some(text(value)?)),
    }
}

/// A truth value, where there is one.
pub fn truth_if_there(fields: &JsonObj, key: &str) -> Result<Option<bool>, u16>
    ensures value { result ≡ truth_if_there key.now fields.now }
{
    match present(fields, key) {
        None => Ok(None),
        Some(value) => Ok(Some(truth(value)?)),
    }
}

/// A field taken out of its object.
fn taken(fields: JsonObj, key: &str) -> Result<Json, u16>
    ensures value { result ≡ needed key.now fields }
{
    match fields.into_value(key) {
        None | Some(Json::Null) => Err(MISSING_FIELD),
        Some(value) => Ok(value),
    }
}

/// An object that is needed, taken out of the one around it.
pub fn object_at(fields: JsonObj, key: &str) -> Result<JsonObj, u16>
    ensures value { result ≡ object_at key.now fields }
{
    let value = taken(fields, key)?;
    object(value)
}

/// A list that is needed, taken out of its object.
pub fn list_at(fields: JsonObj, key: &str) -> Result<JsonList, u16>
    ensures value { result ≡ list_at key.now fields }
{
    match taken(fields, key)? {
        Json::List(items) => Ok(items),
        other => {
            drop(other);
            Err(WRONG_TYPE)
        }
    }
}

/// The fields of a request, taken out of its object.
pub fn body_at(fields: JsonObj, key: &str) -> Body
    ensures value { result ≡ body_of (present key.now fields) }
{
    match fields.into_value(key) {
        None | Some(Json::Null) => Body::Absent,
        Some(Json::Obj(body)) => Body::Fields(body),
        Some(other) => {
            drop(other);
            Body::Wrong
        }
    }
}
