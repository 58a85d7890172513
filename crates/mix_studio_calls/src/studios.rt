//! A studio, call by call.
ghost use Rattle.mix_model.specs.WholeShape.{StudioShape};

use crate::asking::{active, bus, channel, look, previewed, showing, there, volume};
use crate::changing::{choose, hide, mode, preview, remove, set};
use crate::stage::opened;
use crate::ticking::{destroy, done, tick};
use crate::words::{number, say, serial};
use mix_base::NoMemory;
use mix_studio::Studio;
use mix_tables::{Table, cell};
use std::alloc::Global;

/// Cells: what the calls answer, and the calls, both with `, ` between them. The studio is one of
/// the scenes 1 and 2: 1 has the group 3, which has the colour 4 and the tone 5; 2 has the colour
/// twice, and channel 5 names it. 1 is on program and 2 on preview.
pub struct Studios;

impl Table for Studios {
    fn found(&self, alloc: Global, line: &str) -> Result<String, NoMemory> {
        let mut studio = opened(alloc)?;
        let found = play(alloc, &mut studio, cell(line, 1));
        drop(studio);
        found
    }
}

/// Does the calls, and gives their answers.
fn play(alloc: Global, studio: &mut Studio, calls: &str) -> Result<String, NoMemory>
    requires shape { StudioShape studio.old.present }
{
    let mut found = String::new(alloc);
    for call in calls.split(", ") {
        let Ok(()) = answer(alloc, &mut found, studio, call) else {
            drop(found);
            return Err(NoMemory);
        };
    }
    Ok(found)
}

/// Does a call, and writes its answer behind the others.
fn answer(
    alloc: Global,
    found: &mut String,
    studio: &mut Studio,
    call: &str,
) -> Result<(), NoMemory>
    requires shape { StudioShape studio.old.present }
    ensures shape { StudioShape studio.new.present }
{
    if !found.is_empty() {
        say(found, ", ")?;
    }
    match call.split_once(' ') {
        Some((word, given)) => answer_given(found, studio, word, given),
        None => answer_plain(alloc, found, studio, call),
    }
}

fn answer_plain(
    alloc: Global,
    found: &mut String,
    studio: &mut Studio,
    word: &str,
) -> Result<(), NoMemory>
    requires shape { StudioShape studio.old.present }
    ensures shape { StudioShape studio.new.present }
{
    match word {
        "tick" => tick(alloc, found, studio),
        "destroy" => destroy(found, studio),
        "look" => look(found, studio),
        "bus" => bus(found, studio),
        "preview" => previewed(found, studio),
        "active" => active(found, studio),
        "showing" => showing(found, studio),
        _ => say(found, "no call"),
    }
}

fn answer_given(
    found: &mut String,
    studio: &mut Studio,
    word: &str,
    given: &str,
) -> Result<(), NoMemory>
    requires shape { StudioShape studio.old.present }
    ensures shape { StudioShape studio.new.present }
{
    match word {
        "set" => set(found, studio, serial(given)),
        "remove" => remove(found, studio, serial(given)),
        "preview" => preview(found, studio, serial(given)),
        "mode" => mode(found, studio, given == "on"),
        "choose" => choose(found, studio, given),
        "hide" => hide(found, studio, given),
        "done" => done(found, studio, u64::from(number(given))),
        "channel" => channel(found, studio, number(given)),
        "volume" => volume(found, studio, serial(given)),
        "there" => there(found, studio, serial(given)),
        _ => say(found, "no call"),
    }
}
