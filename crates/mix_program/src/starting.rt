//! What comes before a run: words that were read, and answers of the system. Whoever asks the
//! system hands its answers here.
ghost use Rattle.std.specs.Prelude.{◌≡◌, ◌≢◌, ◌↔◌, ◌==◌, ◌&&◌, false, drop, map, string_bytes, IfOk, IfErr, IsOk, IsErr, Ok};
ghost use Rattle.std.specs.IoError.{error_kind};
ghost use Rattle.std.specs.Vec.Iter.{into_iter_items};
ghost use Rattle.mix_program.specs.Starting.{spoken};
ghost use Rattle.mix_program.specs.Words.{is_replay};

use crate::Status;
use mix_base::{NoMemory, Text};
use std::alloc::Global;
use std::io::ErrorKind;
use std::{env, io};

/// The files that the words of a replay name.
#[derive(Clone, Copy)]
pub struct Paths<'a> {
    pub collection: &'a Text,
    pub script: &'a Text,
    pub tape: &'a Text,
}

/// Where the system keeps a file: two files are one exactly where both numbers agree.
#[derive(Clone, Copy)]
pub struct Place {
    pub device: u64,
    pub node: u64,
}

/// The words behind the program's name.
fn texts_of(alloc: Global, mut args: env::Args) -> Result<Vec<Text>, NoMemory>
    ensures value { IfOk result (λ texts.
        texts.items ≡ map string_bytes (drop 1 (into_iter_items args))) }
{
    let mut texts = Vec::new(alloc);
    drop(args.next());
    'words: for word in args {
        texts.push(Text::from_string(word)?)?;
    }
    Ok(texts)
}

/// The words of a command, where each of them is UTF-8; others are wrong.
pub fn words_of(alloc: Global, answer: io::Result<env::Args>) -> Result<Vec<Text>, Status>
    ensures value { IfOk answer (λ args. IfOk result (λ words.
        words.items ≡ map string_bytes (drop 1 (into_iter_items args)))) }
    ensures memory { IfOk answer (λ _. IfErr result (λ status. status.0 ≡ 8)) }
    ensures read { IsOk result → IsOk answer }
    ensures no_memory { IfErr answer (λ fault.
        error_kind fault ≡ ErrorKind.OutOfMemory → IfErr result (λ status. status.0 ≡ 8)) }
    ensures not_utf8 { IfErr answer (λ fault.
        error_kind fault ≢ ErrorKind.OutOfMemory → IfErr result (λ status. status.0 ≡ 2)) }
{
    match answer {
        Ok(args) => match texts_of(alloc, args) {
            Ok(words) => Ok(words),
            Err(NoMemory) => Err(Status(8)),
        },
        Err(fault) => Err(unread(fault.kind())),
    }
}

/// What comes of words that could not be read: one of them isn't UTF-8, or there was no memory.
fn unread(kind: ErrorKind) -> Status
    ensures no_memory { kind ≡ ErrorKind.OutOfMemory → result.0 ≡ 8 }
    ensures not_utf8 { kind ≢ ErrorKind.OutOfMemory → result.0 ≡ 2 }
{
    match kind {
        ErrorKind::OutOfMemory => Status(8),
        _ => Status(2),
    }
}

/// The files that words name. Any other words are wrong.
pub fn paths_of(words: &[Text]) -> Result<Paths<'_>, Status>
    ensures value { IfOk result (λ paths. words.now
        ≡ spoken paths.collection.now paths.script.now paths.tape.now) }
    ensures wrong { IsErr result ↔ is_replay words.now ≡ false }
    ensures status { IfErr result (λ status. status.0 ≡ 2) }
{
    match words {
        [command, collection, script, tape] if command.as_str() == "replay" => Ok(Paths {
            collection,
            script,
            tape,
        }),
        _ => Err(Status(2)),
    }
}

/// What was asked for of a file. Where the system has no answer the program ends with 5.
pub fn had<T: Drop>(answer: io::Result<T>) -> Result<T, Status>
    ensures value { IfOk answer (λ it. result ≡ Ok it) }
    ensures missing { IsErr answer → IsErr result }
    ensures status { IfErr result (λ status. status.0 ≡ 5) }
{
    match answer {
        Ok(it) => Ok(it),
        Err(_) => Err(Status(5)),
    }
}

fn is_one(left: Place, right: Place) -> bool
    ensures value { result ≡ (left.device == right.device && left.node == right.node) }
{
    left.device == right.device && left.node == right.node
}

/// Sees that the file to be written is none of those to be read.
pub fn keep_apart(tape: Place, collection: Place, script: Place) -> Result<(), Status>
    ensures apart { IsOk result ↔ (tape ≢ collection) × (tape ≢ script) }
    ensures status { IfErr result (λ status. status.0 ≡ 5) }
{
    if is_one(tape, collection) || is_one(tape, script) {
        return Err(Status(5));
    }
    Ok(())
}
