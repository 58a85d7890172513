//! The texts of responses.
ghost use Rattle.std.specs.Prelude.{IfOk, IfSome, All};
ghost use Rattle.mix_events.specs.Sayable.{IsSayableDone, IsWholeAnswer};

use mix_base::{Json, NoMemory, Text};
use mix_events::{Said, said_text, status_name};
use mix_json::{JsonFault, read};
use mix_model::{Done, DoneList};
use mix_tables::{Table, cell, copied, number};
use std::alloc::Global;

/// Cells: the text, and then what was done: the id of the request, its type, the status, and the
/// answer as a JSON text, or nothing.
pub struct Responses;

impl Table for Responses {
    fn found(&self, alloc: Global, line: &str) -> Result<String, NoMemory> {
        match done(alloc, line, 1)? {
            Some(done) => response(alloc, done),
            None => Ok(String::from_str(alloc, "not sayable")?),
        }
    }
}

fn response(alloc: Global, done: Done) -> Result<String, NoMemory>
    requires { IsSayableDone done }
{
    if done.id.is_none() {
        drop(done);
        return Ok(String::from_str(alloc, "no id")?);
    }
    let said = Said::Response(done);
    let text = said_text(alloc, &said);
    drop(said);
    copied(alloc, text?)
}

/// What the four cells from a place on say was done. Where the id is `none`, there is none.
fn done(alloc: Global, line: &str, place: usize) -> Result<Option<Done>, NoMemory>
    ensures { IfOk result (λ done. IfSome done IsSayableDone) }
{
    let [first, second, third] = [1, 2, 3].map(|more| place.saturating_add(more));
    let status = u16::try_from(number(line, second)).unwrap_or(0);
    if status_name(status).is_none() {
        return Ok(None);
    }
    let kind = Text::from_str(alloc, cell(line, first))?;
    let Ok(id) = id_of(alloc, cell(line, place)) else {
        drop(kind);
        return Err(NoMemory);
    };
    let Ok(response) = answer_of(alloc, cell(line, third)) else {
        drop(kind);
        drop(id);
        return Err(NoMemory);
    };
    Ok(Some(Done {
        kind,
        id,
        status,
        response,
    }))
}

fn id_of(alloc: Global, cell: &str) -> Result<Option<Text>, NoMemory> {
    if cell == "none" {
        return Ok(None);
    }
    Ok(Some(Text::from_str(alloc, cell)?))
}

/// The answer of a text; one with a fraction is none.
fn answer_of(alloc: Global, text: &str) -> Result<Option<Json>, NoMemory>
    ensures { IfOk result IsWholeAnswer }
{
    match read(alloc, text.as_bytes()) {
        Ok(answer) if !answer.has_frac() => Ok(Some(answer)),
        Ok(answer) => {
            drop(answer);
            Ok(None)
        }
        Err(JsonFault::NotJson) => Ok(None),
        Err(JsonFault::NoMemory) => Err(NoMemory),
    }
}

/// Cells: the text, the id of the batch, and then four for each result.
pub struct Batches;

impl Table for Batches {
    fn found(&self, alloc: Global, line: &str) -> Result<String, NoMemory> {
        let id = Text::from_str(alloc, cell(line, 1))?;
        match results_in(alloc, line) {
            Ok(results) => batch(alloc, id, results),
            Err(NoMemory) => {
                drop(id);
                Err(NoMemory)
            }
        }
    }
}

fn batch(alloc: Global, id: Text, results: DoneList) -> Result<String, NoMemory>
    requires { All IsSayableDone results }
{
    let said = Said::BatchResponse { id, results };
    let text = said_text(alloc, &said);
    drop(said);
    copied(alloc, text?)
}

fn results_in(alloc: Global, line: &str) -> Result<DoneList, NoMemory>
    ensures { IfOk result (λ results. All IsSayableDone results) }
{
    let mut results = Vec::new(alloc);
    match push_results(alloc, line, &mut results) {
        Ok(()) => Ok(DoneList::from_vec(results)),
        Err(NoMemory) => {
            drop(results);
            Err(NoMemory)
        }
    }
}

/// Appends the results of a line.
fn push_results(alloc: Global, line: &str, results: &mut Vec<Done>) -> Result<(), NoMemory>
    requires { All IsSayableDone results.old.items }
    ensures { All IsSayableDone results.new.items }
{
    for place in (2..line.split('\t').count()).step_by(4) {
        if let Some(done) = done(alloc, line, place)? {
            results.push(done)?;
        }
    }
    Ok(())
}
