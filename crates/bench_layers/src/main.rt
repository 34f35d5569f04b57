//! What scripts take the time of.
//!
//! `bench_layers` reads the octets of a DNP3 link from standard input, and prints how many they are, how many events
//! they show, and how many fragments they carry (`bench/link`).
//!
//! `bench_layers COUNT LENGTH` makes COUNT APDUs, of which every eighth is an S format and the others are I formats with
//! an ASDU of LENGTH octets, reads them back, and prints what came (`bench/apci`).
#![tactic(auto)]

mod meter;
mod round;

use meter::measure;
use round::{Load, round};
use std::process::ExitCode;
use std::{env, io};

/// The load that these words ask for.
fn load_of(words: &[String]) -> Option<Load> {
    let [_, count, length] = words else {
        return None;
    };
    let count = count.parse::<u32>().ok()?;
    let length = length.parse::<u8>().ok().filter(|length| *length <= 249)?;
    Some(Load { count, length })
}

fn main(rt: HostRuntime) -> io::Result<ExitCode> {
    let words: Vec<String> = env::args(&rt)?.collect(rt.alloc())?;
    if words.len() < 2 {
        read_link(&rt)?;
        return Ok(ExitCode::from(0));
    }
    let Some(load) = load_of(words.as_slice()) else {
        eprintln!(rt; "usage: bench_layers [COUNT LENGTH] (LENGTH at most 249)")?;
        return Ok(ExitCode::from(2));
    };
    let Ok(tally) = round(rt.alloc(), load) else {
        println!(rt; "refused memory")?;
        return Ok(ExitCode::from(1));
    };
    println!(rt; "{tally}")?;
    Ok(ExitCode::from(0))
}

/// Counts what comes from standard input.
fn read_link(rt: &HostRuntime) -> io::Result<()> {
    let counts = measure(rt.alloc(), &mut rt.reader())?;
    let (octets, events, fragments) = (counts.octets, counts.events, counts.fragments);
    println!(rt; "octets {octets}\nevents {events}\nfragments {fragments}")
}
