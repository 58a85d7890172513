//! Objects that are written as they are gone through.
use mix_base::{Json, JsonObj, NoMemory, Text};
use mix_json::JsonText;
use mix_tables::{Table, cell, copied, object};
use std::alloc::Global;

/// Cells as those of the trees: the text that is written; `each` where each value is written of its
/// own, or `whole` where values are taken as they are; then the object.
pub struct Grown;

impl Table for Grown {
    fn found(&self, alloc: Global, line: &str) -> Result<String, NoMemory> {
        let Some(obj) = object(alloc, cell(line, 2))? else {
            return Ok(String::from_str(alloc, "no object")?);
        };
        let text = written(alloc, &obj, cell(line, 1) == "each");
        drop(obj);
        copied(alloc, text?)
    }
}

fn written(alloc: Global, obj: &JsonObj, each: bool) -> Result<Text, NoMemory> {
    let mut text = JsonText::new(alloc)?;
    let done = if each {
        put_obj(obj, &mut text)
    } else {
        put_whole(obj, &mut text)
    };
    let Ok(()) = done else {
        drop(text);
        return Err(NoMemory);
    };
    text.write()
}

#[cycle(put)]
fn put_obj(obj: &JsonObj, text: &mut JsonText) -> Result<(), NoMemory> {
    text.open()?;
    for member in obj.as_slice() {
        put_field(&member.value, text, member.key.as_str())?;
    }
    text.close()
}

#[cycle(put)]
fn put_field(value: &Json, text: &mut JsonText, key: &str) -> Result<(), NoMemory> {
    match value {
        Json::Null | Json::Frac => text.null(key),
        Json::Bool(truth) => text.truth(key, *truth),
        Json::Int(number) => text.int(key, *number),
        Json::Text(bytes) => text.text(key, bytes.as_str()),
        Json::List(items) => {
            text.key(key)?;
            put_list(items.as_slice(), text)
        }
        Json::Obj(obj) => {
            text.key(key)?;
            put_obj(obj, text)
        }
    }
}

#[cycle(put)]
fn put_list(items: &[Json], text: &mut JsonText) -> Result<(), NoMemory> {
    text.open_list()?;
    for item in items {
        put_item(item, text)?;
    }
    text.close_list()
}

#[cycle(put)]
fn put_item(item: &Json, text: &mut JsonText) -> Result<(), NoMemory> {
    match item {
        Json::Text(bytes) => text.push_text(bytes.as_str()),
        Json::List(items) => put_list(items.as_slice(), text),
        Json::Obj(obj) => put_obj(obj, text),
        Json::Null | Json::Bool(_) | Json::Int(_) | Json::Frac => push(item, text),
    }
}

fn push(item: &Json, text: &mut JsonText) -> Result<(), NoMemory> {
    if item.has_frac() {
        return text.push(&Json::Null);
    }
    text.push(item)
}

/// An object, its values as they are.
fn put_whole(obj: &JsonObj, text: &mut JsonText) -> Result<(), NoMemory> {
    text.open()?;
    for member in obj.as_slice() {
        put_as_it_is(&member.value, text, member.key.as_str())?;
    }
    text.close()
}

fn put_as_it_is(value: &Json, text: &mut JsonText, key: &str) -> Result<(), NoMemory> {
    match value {
        Json::Null => text.text_or_null(key, None),
        Json::Text(bytes) => text.text_or_null(key, Some(bytes.as_str())),
        Json::Obj(obj) => put_kept(obj, text, key),
        Json::Bool(_) | Json::Int(_) | Json::Frac | Json::List(_) => put_value(value, text, key),
    }
}

fn put_kept(obj: &JsonObj, text: &mut JsonText, key: &str) -> Result<(), NoMemory> {
    if obj.has_frac() {
        return text.null(key);
    }
    text.kept(key, obj)
}

fn put_value(value: &Json, text: &mut JsonText, key: &str) -> Result<(), NoMemory> {
    if value.has_frac() {
        return text.null(key);
    }
    text.value(key, value)
}
