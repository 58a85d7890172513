//! Goes through a table of cases for a studio, and writes how many of its lines hold.
#![tactic(auto)]

mod asking;
mod changing;
mod room;
mod stage;
mod studios;
mod ticking;
mod words;

use mix_tables::{Trouble, go};
use std::process::ExitCode;
use studios::Studios;

fn run(rt: &HostRuntime) -> Result<(), Trouble> {
    go(rt, "studios", &Studios)
}

fn main(rt: HostRuntime) -> ExitCode {
    match run(&rt) {
        Ok(()) => ExitCode::SUCCESS,
        Err(_) => ExitCode::FAILURE,
    }
}
