//! Plays the whole gateway and its peers in one thread of virtual time, as a seed says, and writes what happens as lines,
//! which `checks/simulate` judges.
//!
//! `sim SEED SECONDS [NAME=NUMBER ..]` plays so many seconds; numbers of the scenario may be given.
#![tactic(auto)]

mod centre_part;
mod centres;
mod duty;
mod ends;
mod feeds;
mod outstation_part;
mod passes;
mod play;
mod scene;
mod ticker;
mod witness;
mod world;

use crate::world::play_scenario;
use sim_peers::Scenario;
use std::process::ExitCode;
use std::{env, io};

/// The scenario that words ask for, and how many milliseconds it is played.
fn asked_by(words: &[String]) -> Option<(Scenario, u64)> {
    let seed = words.get(1)?.parse::<u64>().ok()?;
    let seconds = words.get(2)?.parse::<u64>().ok()?;
    let mut scenario = Scenario::of_seed(seed);
    for word in words.iter().skip(3) {
        if !scenario.force(word.as_str()) {
            return None;
        }
    }
    Some((scenario, seconds.saturating_mul(1000)))
}

fn main(rt: HostRuntime) -> io::Result<ExitCode> {
    let words: Vec<String> = env::args(&rt)?.collect(rt.alloc())?;
    let Some((scenario, until)) = asked_by(words.as_slice()) else {
        eprintln!(rt; "usage: sim SEED SECONDS [NAME=NUMBER ..]")?;
        return Ok(ExitCode::from(2));
    };
    if play_scenario(&rt, &scenario, until)? {
        return Ok(ExitCode::from(0));
    }
    eprintln!(rt; "refused")?;
    Ok(ExitCode::from(1))
}
