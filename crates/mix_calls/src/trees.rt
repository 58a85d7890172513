//! Objects that are put together of their fields.
use mix_base::{Json, JsonObj, NoMemory};
use mix_json::{Fields, Items};
use mix_tables::{Table, cell, copied, object};
use std::alloc::Global;

/// Cells: the text that is written; `each` where each value is put together of its own, or `whole`
/// where values are taken as they are; then the object.
pub struct Trees;

impl Table for Trees {
    fn found(&self, alloc: Global, line: &str) -> Result<String, NoMemory> {
        let Some(obj) = object(alloc, cell(line, 2))? else {
            return Ok(String::from_str(alloc, "no object")?);
        };
        let fields = if cell(line, 1) == "each" {
            each(&obj, alloc)
        } else {
            whole(&obj, alloc)
        };
        drop(obj);
        copied(alloc, fields?.write()?)
    }
}

/// The fields of an object, the last first.
#[cycle(each)]
fn each(obj: &JsonObj, alloc: Global) -> Result<Fields, NoMemory> {
    let mut fields = Fields::new(alloc);
    for member in obj.as_slice() {
        fields = with_each(&member.value, alloc, fields, member.key.as_str())?;
    }
    Ok(fields)
}

#[cycle(each)]
fn with_each(value: &Json, alloc: Global, fields: Fields, key: &str) -> Result<Fields, NoMemory> {
    match value {
        Json::Null | Json::Frac => fields.null(key),
        Json::Bool(truth) => fields.truth(key, *truth),
        Json::Int(number) => fields.int(key, *number),
        Json::Text(text) => fields.text(key, text.as_str()),
        Json::List(items) => with_list(each_item(items.as_slice(), alloc), fields, key),
        Json::Obj(obj) => with_obj(each(obj, alloc), fields, key),
    }
}

fn with_list(list: Result<Items, NoMemory>, fields: Fields, key: &str) -> Result<Fields, NoMemory> {
    match list {
        Ok(list) => fields.list(key, list),
        Err(NoMemory) => {
            drop(fields);
            Err(NoMemory)
        }
    }
}

fn with_obj(obj: Result<Fields, NoMemory>, fields: Fields, key: &str) -> Result<Fields, NoMemory> {
    match obj {
        Ok(obj) => fields.obj(key, obj),
        Err(NoMemory) => {
            drop(fields);
            Err(NoMemory)
        }
    }
}

#[cycle(each)]
fn each_item(items: &[Json], alloc: Global) -> Result<Items, NoMemory> {
    let mut list = Items::new(alloc);
    match push_all(items, alloc, &mut list) {
        Ok(()) => Ok(list),
        Err(NoMemory) => {
            drop(list);
            Err(NoMemory)
        }
    }
}

#[cycle(each)]
fn push_all(items: &[Json], alloc: Global, list: &mut Items) -> Result<(), NoMemory> {
    for item in items {
        push_each(item, alloc, list)?;
    }
    Ok(())
}

#[cycle(each)]
fn push_each(item: &Json, alloc: Global, list: &mut Items) -> Result<(), NoMemory> {
    match item {
        Json::Text(text) => list.push_text(alloc, text.as_str()),
        Json::Obj(obj) => list.push_obj(each(obj, alloc)?),
        Json::Null | Json::Frac | Json::Bool(_) | Json::Int(_) | Json::List(_) => {
            push_whole(item, alloc, list)
        }
    }
}

fn push_whole(item: &Json, alloc: Global, list: &mut Items) -> Result<(), NoMemory> {
    if item.has_frac() {
        return list.push(Json::Null);
    }
    list.push(item.copy(alloc)?)
}

/// The fields of an object, its values as they are.
fn whole(obj: &JsonObj, alloc: Global) -> Result<Fields, NoMemory> {
    let mut fields = Fields::new(alloc);
    for member in obj.as_slice() {
        fields = with_whole(&member.value, alloc, fields, member.key.as_str())?;
    }
    Ok(fields)
}

fn with_whole(value: &Json, alloc: Global, fields: Fields, key: &str) -> Result<Fields, NoMemory> {
    match value {
        Json::Null => fields.text_or_null(key, None),
        Json::Text(text) => fields.text_or_null(key, Some(text.as_str())),
        Json::Obj(obj) => with_kept(obj, fields, key),
        Json::Bool(_) | Json::Int(_) | Json::Frac | Json::List(_) => {
            with_copy(value, alloc, fields, key)
        }
    }
}

fn with_kept(obj: &JsonObj, fields: Fields, key: &str) -> Result<Fields, NoMemory> {
    if obj.has_frac() {
        return fields.null(key);
    }
    fields.kept(key, obj)
}

fn with_copy(value: &Json, alloc: Global, fields: Fields, key: &str) -> Result<Fields, NoMemory> {
    if value.has_frac() {
        return fields.null(key);
    }
    match value.copy(alloc) {
        Ok(copy) => fields.value(key, copy),
        Err(NoMemory) => {
            drop(fields);
            Err(NoMemory)
        }
    }
}
