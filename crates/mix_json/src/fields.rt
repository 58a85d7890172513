//! The fields of a request: each reader gives the field's value, or the status that refuses the
//! request: 300 MissingRequestField, 401 InvalidRequestFieldType, 402 RequestFieldOutOfRange.
ghost use Rattle.std.specs.Prelude.{◌≡◌, ◌↔◌, None, false, IfOk};
ghost use Rattle.std.specs.Option.{option_copied};
ghost use Rattle.std.specs.Result.{result_map_both};
ghost use Rattle.mix_base.specs.Json.{obj_has_frac, present};
ghost use Rattle.mix_json.specs.Fields.{in_range, is_within};
ghost use Rattle.mix_json.specs.Fields.{need_bool, need_int, need_kept, need_obj};
ghost use Rattle.mix_json.specs.Fields.{need_text, opt_bool, opt_int, opt_obj, opt_text};

use mix_base::{Json, JsonObj, Text};

const MISSING_FIELD: u16 = 300;

const WRONG_TYPE: u16 = 401;

const OUT_OF_RANGE: u16 = 402;

/// A whole number.
pub fn need_int(from: &JsonObj, key: &str) -> Result<i64, u16>
    ensures value { result ≡ need_int key.now from.now }
    ensures missing { result ≡ Err 300 ↔ present key.now from.now ≡ None }
{
    match present(from, key) {
        None => Err(MISSING_FIELD),
        Some(Json::Int(number)) => Ok(*number),
        Some(_) => Err(WRONG_TYPE),
    }
}

/// A text.
pub fn need_text<'a>(from: &'a JsonObj, key: &str) -> Result<&'a Text, u16>
    ensures value { result_map_both (λ t. t.now) (λ e. e) result ≡ need_text key.now from.now }
{
    match present(from, key) {
        None => Err(MISSING_FIELD),
        Some(Json::Text(text)) => Ok(text),
        Some(_) => Err(WRONG_TYPE),
    }
}

/// A truth value.
pub fn need_bool(from: &JsonObj, key: &str) -> Result<bool, u16>
    ensures value { result ≡ need_bool key.now from.now }
    ensures missing { result ≡ Err 300 ↔ present key.now from.now ≡ None }
{
    match present(from, key) {
        None => Err(MISSING_FIELD),
        Some(Json::Bool(truth)) => Ok(*truth),
        Some(_) => Err(WRONG_TYPE),
    }
}

/// An object.
pub fn need_obj<'a>(from: &'a JsonObj, key: &str) -> Result<&'a JsonObj, u16>
    ensures value { result_map_both (λ obj. obj.now) (λ e. e) result ≡ need_obj key.now from.now }
{
    match present(from, key) {
        None => Err(MISSING_FIELD),
        Some(Json::Obj(obj)) => Ok(obj),
        Some(_) => Err(WRONG_TYPE),
    }
}

/// An object that is kept and told again: 401 also where a fraction stands in it.
pub fn need_kept<'a>(from: &'a JsonObj, key: &str) -> Result<&'a JsonObj, u16>
    ensures value { result_map_both (λ obj. obj.now) (λ e. e) result ≡ need_kept key.now from.now }
    ensures whole { IfOk result (λ obj. obj_has_frac obj.now ≡ false) }
{
    match need_obj(from, key) {
        Ok(obj) if obj.has_frac() => Err(WRONG_TYPE),
        other => other,
    }
}

/// A whole number, which may be missing or null.
pub fn opt_int(from: &JsonObj, key: &str) -> Result<Option<i64>, u16>
    ensures value { result ≡ opt_int key.now from.now }
{
    match present(from, key) {
        None => Ok(None),
        Some(Json::Int(number)) => Ok(Some(*number)),
        Some(_) => Err(WRONG_TYPE),
    }
}

/// A text, which may be missing or null.
pub fn opt_text<'a>(from: &'a JsonObj, key: &str) -> Result<Option<&'a Text>, u16>
    ensures value { result_map_both option_copied (λ e. e) result ≡ opt_text key.now from.now }
{
    match present(from, key) {
        None => Ok(None),
        Some(Json::Text(text)) => Ok(Some(text)),
        Some(_) => Err(WRONG_TYPE),
    }
}

/// An object, which may be missing or null.
pub fn opt_obj<'a>(from: &'a JsonObj, key: &str) -> Result<Option<&'a JsonObj>, u16>
    ensures value { result_map_both option_copied (λ e. e) result ≡ opt_obj key.now from.now }
{
    match present(from, key) {
        None => Ok(None),
        Some(Json::Obj(obj)) => Ok(Some(obj)),
        Some(_) => Err(WRONG_TYPE),
    }
}

/// A truth value, and `absent` where it is missing or null.
pub fn opt_bool(from: &JsonObj, key: &str, absent: bool) -> Result<bool, u16>
    ensures value { result ≡ opt_bool absent key.now from.now }
    ensures missing { present key.now from.now ≡ None → result ≡ Ok absent }
{
    match present(from, key) {
        None => Ok(absent),
        Some(Json::Bool(truth)) => Ok(*truth),
        Some(_) => Err(WRONG_TYPE),
    }
}

/// The number, if it lies between the two, each included.
pub fn in_range(value: i64, least: i64, greatest: i64) -> Result<i64, u16>
    ensures value { result ≡ in_range least greatest value }
    ensures refused { result ≡ Err 402 ↔ is_within least greatest value ≡ false }
{
    if least <= value && value <= greatest {
        Ok(value)
    } else {
        Err(OUT_OF_RANGE)
    }
}

/// The value under a key, where it isn't null.
fn present<'a>(from: &'a JsonObj, key: &str) -> Option<&'a Json>
    ensures { option_copied result ≡ present key.now from.now }
{
    match from.get(key) {
        None | Some(Json::Null) => None,
        Some(value) => Some(value),
    }
}
