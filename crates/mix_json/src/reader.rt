//! A reader of JSON texts, which keeps its room from text to text.
ghost use Rattle.std.specs.Prelude.{◌≡◌, Some, None, IfOk};
ghost use Rattle.mix_json.specs.Reading.{json_of};

use crate::reading::JsonFault;
use crate::tokens::whole;
use json::Scratch;
use mix_base::{Json, NoMemory};
use std::alloc::Global;

/// Reads one text after another, and keeps the room that reading takes. What it read before makes
/// no difference.
#[derive(Drop)]
pub struct JsonReader {
    alloc: Global,
    scratch: Box<Scratch>,
}

impl JsonReader {
    pub fn new(alloc: Global) -> Result<JsonReader, NoMemory> {
        let scratch = Box::new(alloc, Scratch::new(alloc))?;
        Ok(JsonReader { alloc, scratch })
    }

    /// The value that bytes stand for.
    pub fn read(&mut self, bytes: &[u8]) -> Result<Json, JsonFault>
        ensures value { IfOk result (λ value. json_of bytes.now ≡ Some value) }
        ensures not_json { result ≡ Err JsonFault.NotJson → json_of bytes.now ≡ None }
    {
        match str::from_utf8(bytes) {
            Ok(text) => whole(self.alloc, text, &mut self.scratch),
            Err(_) => Err(JsonFault::NotJson),
        }
    }
}
