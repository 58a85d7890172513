//! JSON texts both ways.
use mix_base::NoMemory;
use mix_json::{JsonFault, JsonReader};
use mix_tables::{Table, cell, decoded, pieces, written};
use std::alloc::Global;

/// What the reader reads before each other text; nothing of it shows.
const BEFORE: &str = "{\"\\u0062\":[\"\\tx\",123456789],\"a\":{}}";

/// What bytes are written as that stand for a JSON value, or `refused`.
fn again(alloc: Global, bytes: &[u8]) -> Result<String, NoMemory> {
    let mut reader = JsonReader::new(alloc)?;
    let before = reader.read(BEFORE.as_bytes());
    let was_read = before.is_ok();
    drop(before);
    let found = if was_read {
        again_by(alloc, &mut reader, bytes)
    } else {
        Err(NoMemory)
    };
    drop(reader);
    found
}

/// The same by a reader.
fn again_by(alloc: Global, reader: &mut JsonReader, bytes: &[u8]) -> Result<String, NoMemory> {
    match reader.read(bytes) {
        Ok(value) => {
            let text = written(alloc, &value);
            drop(value);
            text
        }
        Err(JsonFault::NotJson) => Ok(String::from_str(alloc, "refused")?),
        Err(JsonFault::NoMemory) => Err(NoMemory),
    }
}

/// Cells: the text that is written, `fraction` or `refused`, and the text that is read.
pub struct Texts;

impl Table for Texts {
    fn found(&self, alloc: Global, line: &str) -> Result<String, NoMemory> {
        let bytes = decoded(alloc, cell(line, 1))?;
        again(alloc, bytes.as_slice())
    }
}

/// Cells: `same` where the text is written as it was read, else as above; then its pieces.
pub struct LongTexts;

impl Table for LongTexts {
    fn found(&self, alloc: Global, line: &str) -> Result<String, NoMemory> {
        let bytes = pieces(alloc, line, 1)?;
        let text = again(alloc, bytes.as_slice())?;
        if text.as_str().as_bytes() == bytes.as_slice() {
            return Ok(String::from_str(alloc, "same")?);
        }
        Ok(text)
    }
}
