//! Numbers in calls, and answers in words.
use mix_base::{NoMemory, Serial};
use mix_transition::BusChange;
use std::fmt::Write;

/// A number of a call; 0 where it is none.
pub fn number(text: &str) -> u32 {
    text.parse::<u32>().unwrap_or(0)
}

pub fn serial(text: &str) -> Serial {
    Serial(u64::from(number(text)))
}

/// Writes a text behind the others.
pub fn say(found: &mut String, text: &str) -> Result<(), NoMemory> {
    Ok(found.push_str(text)?)
}

pub fn say_truth(found: &mut String, truth: bool) -> Result<(), NoMemory> {
    say(found, if truth { "yes" } else { "no" })
}

pub fn say_maybe(found: &mut String, serial: Option<Serial>) -> Result<(), NoMemory> {
    match serial {
        Some(serial) => Ok(write!(found, "{}", serial.0)?),
        None => say(found, "none"),
    }
}

/// Writes what changed: whether a fade ended, whether a change began, whether the target is another.
pub fn say_change(found: &mut String, change: BusChange) -> Result<(), NoMemory> {
    let told = match (change.ended, change.started, change.target) {
        (false, false, false) => "nothing",
        (true, false, false) => "ended",
        (false, true, false) => "started",
        (false, false, true) => "another",
        (true, true, false) => "ended started",
        (true, false, true) => "ended another",
        (false, true, true) => "started another",
        (true, true, true) => "ended started another",
    };
    say(found, told)
}
