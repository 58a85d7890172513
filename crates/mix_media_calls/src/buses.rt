//! The program bus, call by call.
use mix_base::{NoMemory, Rate, Serial};
use mix_tables::{Table, cell};
use mix_transition::{BusChange, ProgramBus};
use std::alloc::Global;
use std::fmt::Write;

/// In 100 milliseconds there are four frames.
const FORTY: Rate = Rate { num: 40, den: 1 };

/// Cells: what the calls answer, and the calls, both with `, ` between them. The bus is new, at rest
/// on source 1; `fade` and `cut` choose, `ms N` sets the duration, `set N` the program, `tick` is a
/// frame more, `forget N for M` takes a source away. `look` asks for the target, both ends, how much of
/// a fade has passed, and what is chosen.
pub struct Buses;

impl Table for Buses {
    fn found(&self, alloc: Global, line: &str) -> Result<String, NoMemory> {
        let mut bus = ProgramBus::new(Serial(1));
        bus.has_shape();
        let mut found = String::new(alloc);
        for call in cell(line, 1).split(", ") {
            answer(&mut found, &mut bus, call)?;
        }
        Ok(found)
    }
}

/// Does a call, and writes its answer behind the others.
fn answer(found: &mut String, bus: &mut ProgramBus, call: &str) -> Result<(), NoMemory> {
    if !found.is_empty() {
        found.push_str(", ")?;
    }
    match call.split_once(' ') {
        Some((word, given)) => answer_given(found, bus, word, given),
        None => answer_plain(found, bus, call),
    }
}

fn answer_plain(found: &mut String, bus: &mut ProgramBus, word: &str) -> Result<(), NoMemory> {
    match word {
        "fade" => choose(found, bus, true),
        "cut" => choose(found, bus, false),
        "tick" => say(found, bus.advance()),
        "look" => look(found, bus),
        _ => Ok(found.push_str("no call")?),
    }
}

fn answer_given(
    found: &mut String,
    bus: &mut ProgramBus,
    word: &str,
    given: &str,
) -> Result<(), NoMemory> {
    match word {
        "ms" => set_duration(found, bus, number(given)),
        "set" => say(found, bus.set(serial(given), FORTY)),
        "forget" => forget(found, bus, given),
        _ => Ok(found.push_str("no call")?),
    }
}

fn number(text: &str) -> u32 {
    text.parse::<u32>().unwrap_or(0)
}

fn serial(text: &str) -> Serial {
    Serial(u64::from(number(text)))
}

fn choose(found: &mut String, bus: &mut ProgramBus, fade: bool) -> Result<(), NoMemory> {
    bus.choose(fade);
    Ok(found.push_str("chosen")?)
}

#[tactic(auto, unfolding(mix_model::specs::Values::is_duration))]
fn set_duration(found: &mut String, bus: &mut ProgramBus, ms: u32) -> Result<(), NoMemory> {
    if ms < 50 || 20_000 < ms {
        return Ok(found.push_str("out of range")?);
    }
    bus.set_duration(ms);
    Ok(found.push_str("chosen")?)
}

fn forget(found: &mut String, bus: &mut ProgramBus, given: &str) -> Result<(), NoMemory> {
    let (gone, other) = given.split_once(" for ").unwrap_or((given, ""));
    say(found, bus.forget(serial(gone), serial(other)))
}

/// Writes what changed: whether a fade ended, whether a change began, whether the target is another.
fn say(found: &mut String, change: BusChange) -> Result<(), NoMemory> {
    let told = match (change.ended, change.started, change.target) {
        (false, false, false) => "nothing",
        (true, false, false) => "ended",
        (false, true, false) => "started",
        (false, false, true) => "another",
        (true, true, false) => "ended started",
        (true, false, true) => "ended another",
        (false, true, true) => "started another",
        (true, true, true) => "ended started another",
    };
    Ok(found.push_str(told)?)
}

/// Writes all that can be asked of the bus.
fn look(found: &mut String, bus: &ProgramBus) -> Result<(), NoMemory> {
    let (from, to) = bus.ends();
    let (passed, frames) = bus.weights();
    write!(found, "on {} from {}", bus.target().0, from.0)?;
    if let Some(to) = to {
        write!(found, " to {}", to.0)?;
    }
    let chosen = if bus.fade() { "fade" } else { "cut" };
    write!(
        found,
        " at {passed} of {frames} {chosen} {}",
        bus.duration()
    )?;
    Ok(())
}
