//! Questions.
use crate::words::{say, say_maybe, say_truth};
use mix_base::{NoMemory, Serial};
use mix_studio::Studio;
use std::fmt::Write;

/// Writes what a studio was opened with, its clocks, and whether it is in studio mode.
pub fn look(found: &mut String, studio: &Studio) -> Result<(), NoMemory> {
    let (width, height) = studio.canvas();
    let rate = studio.rate();
    let (pictures, blocks) = studio.clocks();
    write!(found, "{width} x {height} at {} / {}", rate.num, rate.den)?;
    write!(found, " clocks {pictures} {blocks}")?;
    say(found, if studio.studio_mode() { " mode" } else { "" })
}

/// Writes what the program shows, and how its next change goes.
pub fn bus(found: &mut String, studio: &Studio) -> Result<(), NoMemory> {
    let bus = studio.bus();
    let (passed, frames) = bus.weights();
    write!(found, "on {} at {passed} of {frames}", bus.target().0)?;
    let chosen = if bus.fade() { "fade" } else { "cut" };
    Ok(write!(found, " {chosen} {}", bus.duration())?)
}

/// Writes both ends that a channel names.
pub fn channel(found: &mut String, studio: &Studio, channel: u32) -> Result<(), NoMemory> {
    if channel >= 64 {
        return say(found, "no channel");
    }
    let (first, second) = studio.graph().channel(channel);
    say_maybe(found, first)?;
    say(found, " ")?;
    say_maybe(found, second)
}

pub fn previewed(found: &mut String, studio: &Studio) -> Result<(), NoMemory> {
    say_maybe(found, studio.graph().preview())
}

/// Writes which sources are active.
pub fn active(found: &mut String, studio: &Studio) -> Result<(), NoMemory> {
    let graph = studio.graph();
    say(found, "active")?;
    for serial in 1..graph.next_serial().0 {
        if graph.active(Serial(serial)) {
            write!(found, " {serial}")?;
        }
    }
    Ok(())
}

/// Writes which sources show.
pub fn showing(found: &mut String, studio: &Studio) -> Result<(), NoMemory> {
    let graph = studio.graph();
    say(found, "showing")?;
    for serial in 1..graph.next_serial().0 {
        if graph.showing(Serial(serial)) {
            write!(found, " {serial}")?;
        }
    }
    Ok(())
}

/// Writes how loud a source is.
pub fn volume(found: &mut String, studio: &Studio, serial: Serial) -> Result<(), NoMemory> {
    match studio.graph().row(serial) {
        Some(row) => Ok(write!(found, "{}", row.sound.volume)?),
        None => say(found, "none"),
    }
}

/// Writes whether a source is there, named or not.
pub fn there(found: &mut String, studio: &Studio, serial: Serial) -> Result<(), NoMemory> {
    say_truth(found, studio.graph().row(serial).is_some())
}
