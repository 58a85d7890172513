//! JSON texts and texts as strings.
use mix_base::{Json, JsonObj, NoMemory, Text};
use mix_json::{JsonFault, read, write};
use std::alloc::Global;

/// What a JSON value is written as; a value with a fraction isn't written.
pub fn written(alloc: Global, value: &Json) -> Result<String, NoMemory> {
    if value.has_frac() {
        return Ok(String::from_str(alloc, "fraction")?);
    }
    copied(alloc, write(alloc, value)?)
}

/// A text as a string.
pub fn copied(alloc: Global, text: Text) -> Result<String, NoMemory> {
    let copy = String::from_str(alloc, text.as_str());
    drop(text);
    Ok(copy?)
}

/// The object of a JSON text.
pub fn object(alloc: Global, text: &str) -> Result<Option<JsonObj>, NoMemory> {
    match read(alloc, text.as_bytes()) {
        Ok(Json::Obj(obj)) => Ok(Some(obj)),
        Ok(other) => {
            drop(other);
            Ok(None)
        }
        Err(JsonFault::NotJson) => Ok(None),
        Err(JsonFault::NoMemory) => Err(NoMemory),
    }
}

/// A text as a JSON text.
pub fn quoted(alloc: Global, text: &Text) -> Result<String, NoMemory> {
    let value = Json::Text(text.share()?);
    let written = written(alloc, &value);
    drop(value);
    written
}
