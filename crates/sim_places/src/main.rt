//! Plays the places of control centres in one thread of virtual time, as a seed says, and writes what happens as lines, which
//! `checks/places` judges: who connects, who waits, who has a slot, who has to give way, and who is shut.
//!
//! `sim_places SEED SECONDS [NAME=NUMBER ..]` plays so many seconds; numbers of the scenario may be given.
#![tactic(auto)]

mod accepting_thread;
mod centre;
mod connection;
mod registry;
mod scenario;
mod stage;
mod timers;
mod worker;
mod world;

use crate::scenario::Scenario;
use crate::world::play_scenario;
use std::process::ExitCode;
use std::{env, io};

/// The scenario that words ask for, and how many milliseconds it is played.
fn asked_by(words: &[String]) -> Option<(Scenario, u64)> {
    let seed = words.get(1)?.parse::<u64>().ok()?;
    let seconds = words.get(2)?.parse::<u64>().ok()?;
    let mut scenario = Scenario::of_seed(seed);
    for word in words.iter().skip(3) {
        if !scenario.force(word.as_str()) {
            return None;
        }
    }
    Some((scenario, seconds.saturating_mul(1000)))
}

fn main(rt: HostRuntime) -> io::Result<ExitCode> {
    let words: Vec<String> = env::args(&rt)?.collect(rt.alloc())?;
    let Some((scenario, until)) = asked_by(words.as_slice()) else {
        eprintln!(rt; "usage: sim_places SEED SECONDS [NAME=NUMBER ..]")?;
        return Ok(ExitCode::from(2));
    };
    if play_scenario(&rt, &scenario, until)? {
        return Ok(ExitCode::from(0));
    }
    eprintln!(rt; "refused")?;
    Ok(ExitCode::from(1))
}
