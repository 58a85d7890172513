//! Goes through tables of cases for single calls of names, numbers, texts and lines, and writes for
//! each table how many of its lines hold.
#![tactic(auto)]

mod durations;
mod fields;
mod grown;
mod lines;
mod names;
mod texts;
mod trees;
mod uuids;

use durations::Durations;
use fields::{FieldTable, Ranges};
use grown::Grown;
use lines::Lines;
use mix_tables::{Trouble, go, go_through};
use names::Names;
use std::process::ExitCode;
use texts::{LongTexts, Texts};
use trees::Trees;
use uuids::Uuids;

fn run(rt: &HostRuntime) -> Result<(), Trouble> {
    go(rt, "names", &Names)?;
    go(rt, "uuids", &Uuids)?;
    go(rt, "durations", &Durations)?;
    go(rt, "texts", &Texts)?;
    go(rt, "readings", &Texts)?;
    go(rt, "long_texts", &LongTexts)?;
    go(rt, "megabytes", &LongTexts)?;
    go(rt, "fields", &FieldTable)?;
    go(rt, "ranges", &Ranges)?;
    go(rt, "trees", &Trees)?;
    go_through(rt, "grown", "trees", &Grown)?;
    go(rt, "lines", &Lines)
}

fn main(rt: HostRuntime) -> ExitCode {
    match run(&rt) {
        Ok(()) => ExitCode::SUCCESS,
        Err(_) => ExitCode::FAILURE,
    }
}
