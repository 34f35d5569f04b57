//! What the process takes, as the system tells.

use run_status::ProcessStatus;
use std::fs::File;
use std::os::unix::fs::FileExt;
use std::rt::Files;
use std::{io, str};

/// The most octets that are read of a file of the system's.
const MOST_OCTETS: usize = 4096;

/// Behind the name of the program: how many fields stand before the time that it took.
const BEFORE_TIMES: usize = 11;

/// The milliseconds of the unit in which that is counted: Linux tells programs of a hundred of them a second.
const UNIT_MS: u64 = 10;

/// The octets of the unit in which memory is counted.
const KILOBYTE: u64 = 1024;

/// The files in which Linux tells what the process takes.
#[derive(Drop)]
pub struct ProcessFiles {
    stat: File,
    status: File,
}

impl ProcessFiles {
    /// Opens them.
    pub fn open<R: Files<File = File>>(rt: &R) -> io::Result<ProcessFiles> {
        Ok(ProcessFiles {
            stat: File::open(rt, "/proc/self/stat")?,
            status: File::open(rt, "/proc/self/status")?,
        })
    }

    /// What the process takes now, if both tell.
    pub fn read(&self) -> Option<ProcessStatus> {
        let mut octets = [0; MOST_OCTETS];
        let processor_ms = processor_time(front_of(&self.stat, &mut octets)?)?;
        let resident = resident_memory(front_of(&self.status, &mut octets)?)?;
        Some(ProcessStatus {
            resident,
            processor_ms,
        })
    }
}

/// The front of a file, as text.
fn front_of<'a>(file: &File, octets: &'a mut [u8]) -> Option<&'a str> {
    let count = file.read_at(octets, 0).ok()?;
    str::from_utf8(octets.get(..count)?).ok()
}

/// The milliseconds of a processor that the process took, in its own code and in the system's, by the text of
/// `/proc/self/stat`.
fn processor_time(text: &str) -> Option<u64> {
    let (_, behind_name) = text.rsplit_once(')')?;
    let mut fields = behind_name.split_whitespace();
    let own = number_in(fields.nth(BEFORE_TIMES)?)?;
    let of_system = number_in(fields.next()?)?;
    Some(own.saturating_add(of_system).saturating_mul(UNIT_MS))
}

/// The octets of memory that are resident, by the text of `/proc/self/status`.
fn resident_memory(text: &str) -> Option<u64> {
    for line in text.lines() {
        if let Some(amount) = line.strip_prefix("VmRSS:") {
            let kilobytes = number_in(amount.split_whitespace().next()?)?;
            return Some(kilobytes.saturating_mul(KILOBYTE));
        }
    }
    None
}

/// The number that a text says, if it says one.
fn number_in(text: &str) -> Option<u64> {
    text.parse().ok()
}
