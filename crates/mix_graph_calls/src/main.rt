//! Plays scenarios on the graph of sources, and says of each whether it went as it is written.
#![tactic(auto)]

mod answer;
mod asking;
mod editing;
mod forms;
mod given;
mod holding;
mod making;
mod player;
mod programs;
mod reading;
mod repetition;
mod room;
mod stage;

use crate::player::Player;
use mix_base::NoMemory;
use std::process::ExitCode;
use std::{env, fs, io};

/// Plays the scenarios of a file.
fn play(rt: &HostRuntime, path: &str, player: &mut Player) -> io::Result<()> {
    let text = fs::read_to_string(rt, path)?;
    let played = player.play(rt.alloc(), text.as_str());
    drop(text);
    match played {
        Ok(()) => Ok(()),
        Err(NoMemory) => Err(io::Error::from(io::ErrorKind::OutOfMemory)),
    }
}

/// Plays the files that the program's words name.
fn play_all(rt: &HostRuntime, player: &mut Player) -> io::Result<()> {
    for path in env::args(rt)?.skip(1) {
        let played = play(rt, path.as_str(), player);
        drop(path);
        played?;
    }
    Ok(())
}

fn main(rt: HostRuntime) -> io::Result<ExitCode> {
    let mut player = Player::new(rt.alloc());
    let played = play_all(&rt, &mut player);
    let told = rt.print(player.report());
    let good = player.is_good();
    drop(player);
    played?;
    told?;
    Ok(ExitCode::from(if good { 0 } else { 1 }))
}
