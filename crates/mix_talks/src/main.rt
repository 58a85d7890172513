//! Goes through tables of cases of what is heard and said, and writes for each table how many of its
//! lines hold.
#![tactic(auto)]

mod asked;
mod events;
mod given;
mod hearing;
mod inputs;
mod items;
mod logins;
mod others;
mod responses;
mod scenes;
mod statuses;

use asked::{Asked, Masks};
use events::{Events, Intents};
use hearing::{Hearing, Messages, Situations};
use logins::{Greetings, Logins};
use mix_tables::{Trouble, go, go_through};
use responses::{Batches, Responses};
use statuses::Statuses;
use std::process::ExitCode;

/// What is heard.
fn run_hearing(rt: &HostRuntime, situations: &Situations) -> Result<(), Trouble> {
    go(rt, "hearing", &Hearing(situations))?;
    go(rt, "messages", &Messages(situations))?;
    go(rt, "asked", &Asked(situations))?;
    go(rt, "masks", &Masks)?;
    go(rt, "logins", &Logins)
}

/// What is said.
fn run_saying(rt: &HostRuntime) -> Result<(), Trouble> {
    go(rt, "greetings", &Greetings)?;
    go(rt, "events", &Events)?;
    go(rt, "more_events", &Events)?;
    go_through(rt, "intents", "events", &Intents)?;
    go(rt, "responses", &Responses)?;
    go(rt, "batches", &Batches)?;
    go(rt, "statuses", &Statuses)
}

fn run(rt: &HostRuntime) -> Result<(), Trouble> {
    let situations = Situations::new(rt.alloc())?;
    let heard = run_hearing(rt, &situations);
    drop(situations);
    heard?;
    run_saying(rt)
}

fn main(rt: HostRuntime) -> ExitCode {
    match run(&rt) {
        Ok(()) => ExitCode::SUCCESS,
        Err(_) => ExitCode::FAILURE,
    }
}
