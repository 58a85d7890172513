//! The lines that are written for blocks of sound.
ghost use Rattle.std.specs.Prelude.{IsTrue};
ghost use Rattle.std.specs.List.{list_all};
ghost use Rattle.mix_model.specs.Voices.{is_voice};
ghost use Rattle.mix_events.specs.Sayings.{IsSayableReply};
ghost use Rattle.mix_script.specs.Output.{IsShownWith, IsWhole};

use crate::tones::tones;
use mix_audio::mix;
use mix_base::{ListOf, NoMemory};
use mix_events::{Answer, Reply};
use mix_model::VoiceList;
use mix_outside::MemSink;
use mix_script::{Shown, write_reply};
use mix_tables::{Table, cell};
use std::alloc::Global;

/// No line of a block has more bytes.
const ROOM: usize = 256;

/// Cells: the line of a block, then its number, and the one or two tones that are heard, as a line
/// of blocks has them.
pub struct BlockLines;

impl Table for BlockLines {
    fn found(&self, alloc: Global, line: &str) -> Result<String, NoMemory> {
        let number = cell(line, 1).parse::<u32>().unwrap_or(0);
        let voices = tones(alloc, cell(line, 2))?;
        line_of(alloc, number, voices)
    }
}

/// The line of the block of this number in which these voices are heard.
fn line_of(alloc: Global, number: u32, voices: VoiceList) -> Result<String, NoMemory>
    requires { IsTrue (list_all is_voice voices) }
{
    let number = u64::from(number);
    let block = mix(alloc, &voices, number);
    let answer = Answer {
        reply: Reply::Block {
            number,
            voices,
            recording: None,
        },
        stopping: false,
        dying: 0,
    };
    let Ok(block) = block else {
        drop(answer);
        return Err(NoMemory);
    };
    let shown = Shown::Block(block);
    let found = written(alloc, &answer, &shown);
    drop(shown);
    drop(answer);
    found
}

/// What is written for an answer, without the line feed at its end.
fn written(alloc: Global, answer: &Answer, shown: &Shown) -> Result<String, NoMemory>
    requires sayable { IsSayableReply answer.now.reply }
    requires with_answer { IsShownWith answer.now.reply shown.now }
    requires whole { IsWhole shown.now }
{
    let mut out = MemSink::new(alloc, ROOM, ListOf::from_vec(Vec::new(alloc)))?;
    let found = match write_reply(alloc, &mut out, answer, shown) {
        Ok(()) => line_in(alloc, out.held()),
        Err(_) => Err(NoMemory),
    };
    drop(out);
    found
}

/// The one line of these bytes.
fn line_in(alloc: Global, bytes: &[u8]) -> Result<String, NoMemory> {
    let text = str::from_utf8(bytes).unwrap_or("no text\n");
    let line = text.strip_suffix("\n").unwrap_or("no line");
    Ok(String::from_str(alloc, line)?)
}
