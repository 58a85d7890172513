//! The fields of a request.
ghost use Rattle.std.specs.Prelude.{◌≡◌, false};
ghost use Rattle.mix_base.specs.Json.{obj_has_frac};

use mix_base::{Json, JsonObj, NoMemory, Text};
use mix_json::{
    Fields, in_range, need_bool, need_int, need_kept, need_obj, need_text, opt_bool, opt_int,
    opt_obj, opt_text,
};
use mix_tables::{Table, cell, copied, object, quoted, written};
use std::alloc::Global;

/// Cells: what is answered, a JSON value, `none` or a status; then the call, the key, and the object.
pub struct FieldTable;

impl Table for FieldTable {
    fn found(&self, alloc: Global, line: &str) -> Result<String, NoMemory> {
        match object(alloc, cell(line, 3))? {
            Some(obj) => {
                let found = needed(alloc, cell(line, 1), &obj, cell(line, 2));
                drop(obj);
                found
            }
            None => Ok(String::from_str(alloc, "no object")?),
        }
    }
}

/// The answer of a call for a field that is needed.
fn needed(alloc: Global, call: &str, obj: &JsonObj, key: &str) -> Result<String, NoMemory> {
    if call == "need_int" {
        number(alloc, need_int(obj, key))
    } else if call == "need_bool" {
        truth(alloc, need_bool(obj, key))
    } else if call == "need_text" {
        text(alloc, need_text(obj, key))
    } else if call == "need_obj" {
        members(alloc, need_obj(obj, key))
    } else if call == "need_kept" {
        kept(alloc, obj, key)
    } else {
        optional(alloc, call, obj, key)
    }
}

/// The answer of a call for a field that may be missing.
fn optional(alloc: Global, call: &str, obj: &JsonObj, key: &str) -> Result<String, NoMemory> {
    if call == "opt_int" {
        optional_number(alloc, opt_int(obj, key))
    } else if call == "opt_text" {
        optional_text(alloc, opt_text(obj, key))
    } else if call == "opt_obj" {
        optional_members(alloc, opt_obj(obj, key))
    } else if call == "opt_bool true" {
        truth(alloc, opt_bool(obj, key, true))
    } else if call == "opt_bool false" {
        truth(alloc, opt_bool(obj, key, false))
    } else {
        Ok(String::from_str(alloc, "no call")?)
    }
}

fn none(alloc: Global) -> Result<String, NoMemory> {
    Ok(String::from_str(alloc, "none")?)
}

fn refused(alloc: Global, status: u16) -> Result<String, NoMemory> {
    Ok(format!(in alloc; "status {status}")?)
}

fn number(alloc: Global, answer: Result<i64, u16>) -> Result<String, NoMemory> {
    match answer {
        Ok(number) => Ok(format!(in alloc; "{number}")?),
        Err(status) => refused(alloc, status),
    }
}

fn optional_number(alloc: Global, answer: Result<Option<i64>, u16>) -> Result<String, NoMemory> {
    match answer {
        Ok(None) => none(alloc),
        Ok(Some(found)) => number(alloc, Ok(found)),
        Err(status) => refused(alloc, status),
    }
}

fn truth(alloc: Global, answer: Result<bool, u16>) -> Result<String, NoMemory> {
    match answer {
        Ok(truth) => Ok(format!(in alloc; "{truth}")?),
        Err(status) => refused(alloc, status),
    }
}

fn text(alloc: Global, answer: Result<&Text, u16>) -> Result<String, NoMemory> {
    match answer {
        Ok(text) => quoted(alloc, text),
        Err(status) => refused(alloc, status),
    }
}

fn optional_text(alloc: Global, answer: Result<Option<&Text>, u16>) -> Result<String, NoMemory> {
    match answer {
        Ok(None) => none(alloc),
        Ok(Some(found)) => quoted(alloc, found),
        Err(status) => refused(alloc, status),
    }
}

fn members(alloc: Global, answer: Result<&JsonObj, u16>) -> Result<String, NoMemory> {
    match answer {
        Ok(obj) => object_text(alloc, obj),
        Err(status) => refused(alloc, status),
    }
}

fn optional_members(
    alloc: Global,
    answer: Result<Option<&JsonObj>, u16>,
) -> Result<String, NoMemory> {
    match answer {
        Ok(None) => none(alloc),
        Ok(Some(obj)) => object_text(alloc, obj),
        Err(status) => refused(alloc, status),
    }
}

fn object_text(alloc: Global, obj: &JsonObj) -> Result<String, NoMemory> {
    let value = Json::Obj(obj.copy(alloc)?);
    let written = written(alloc, &value);
    drop(value);
    written
}

/// An object that is kept is written again under the key `k`.
fn kept(alloc: Global, obj: &JsonObj, key: &str) -> Result<String, NoMemory> {
    match need_kept(obj, key) {
        Ok(found) => kept_text(alloc, found),
        Err(status) => refused(alloc, status),
    }
}

fn kept_text(alloc: Global, obj: &JsonObj) -> Result<String, NoMemory>
    requires { obj_has_frac obj.now ≡ false }
{
    let text = Fields::new(alloc).kept("k", obj)?.write()?;
    copied(alloc, text)
}

/// Cells: the number or a status, then a number, and the least and the greatest that are taken.
pub struct Ranges;

impl Table for Ranges {
    fn found(&self, alloc: Global, line: &str) -> Result<String, NoMemory> {
        let [value, least, greatest] = [1, 2, 3].map(|place| whole(line, place));
        number(alloc, in_range(value, least, greatest))
    }
}

/// The whole number of a cell, and 0 where it has none.
pub fn whole(line: &str, place: usize) -> i64 {
    cell(line, place).parse::<i64>().unwrap_or(0)
}
