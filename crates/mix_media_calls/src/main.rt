//! Goes through tables of cases for the program bus, for blocks of sound and their lines, for the
//! payloads of a record and for rows of pixels, and writes for each table how many of its lines hold.
#![tactic(auto)]

mod block_lines;
mod blocks;
mod buses;
mod payloads;
mod rows;
mod tones;

use block_lines::BlockLines;
use blocks::Blocks;
use buses::Buses;
use mix_tables::{Trouble, go};
use payloads::{Pictures, Tracks};
use rows::{Fades, Rows};
use std::process::ExitCode;

fn run(rt: &HostRuntime) -> Result<(), Trouble> {
    go(rt, "buses", &Buses)?;
    go(rt, "blocks", &Blocks)?;
    go(rt, "block_lines", &BlockLines)?;
    go(rt, "pictures", &Pictures)?;
    go(rt, "tracks", &Tracks)?;
    go(rt, "rows", &Rows)?;
    go(rt, "fades", &Fades)
}

fn main(rt: HostRuntime) -> ExitCode {
    match run(&rt) {
        Ok(()) => ExitCode::SUCCESS,
        Err(_) => ExitCode::FAILURE,
    }
}
