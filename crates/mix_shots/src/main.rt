//! Goes through tables of cases of the kinds of input and of painting, and writes for each table how
//! many of its lines hold.
#![tactic(auto)]

mod canvases;
mod draws;
mod given;
mod kinds;
mod mixes;
mod pictures;
mod pixels;
mod places;
mod runs;
mod settings;
mod shots;
mod workers;

use kinds::Kinds;
use mix_tables::{Trouble, go};
use mixes::Mixes;
use pictures::Pictures;
use pixels::{Pixels, Samples};
use settings::SettingsTable;
use std::fs;
use std::process::ExitCode;
use workers::go_by_workers;

/// Goes through the tables that want no workers, and gives the text of the one that does.
fn run(rt: &HostRuntime) -> Result<String, Trouble> {
    go(rt, "kinds", &Kinds)?;
    go(rt, "settings", &SettingsTable)?;
    go(rt, "pixels", &Pixels)?;
    go(rt, "samples", &Samples)?;
    go(rt, "pictures", &Pictures)?;
    go(rt, "mixes", &Mixes)?;
    Ok(fs::read_to_string(rt, "workers.tsv")?)
}

fn main(rt: HostRuntime) -> ExitCode {
    let ended = match run(&rt) {
        Ok(text) => go_by_workers(&rt, rt.alloc(), text.as_str()),
        Err(trouble) => Err(trouble),
    };
    match ended {
        Ok(()) => ExitCode::SUCCESS,
        Err(_) => ExitCode::FAILURE,
    }
}
