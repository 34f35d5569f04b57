//! Settings files, and why one can't be used.

use crate::failure_of_file::FileFailure;
use crate::system::System;
use cmd_check::{LONGEST_FILE, Unusable, read_settings};
use cmd_text::Plain;
use gw_map::Settings;
use run_figures::Failure;
use std::fs::File;
use std::io::{self, Read};
use thiserror::Error;

/// Why a settings file can't be used.
#[derive(Debug, Drop, Error)]
pub enum BadFile<'a> {
    /// It can't be read: its name, and why.
    #[error("can't read {file}: {1}", file = Plain(*.0))]
    Unread(&'a str, Unread),
    /// What stands in it can't be used: its octets, and why.
    #[error("{1}")]
    Refused(Vec<u8>, Unusable),
}

/// Why a settings file can't be read.
#[derive(Clone, Copy, Debug, Error)]
pub enum Unread {
    /// It has more octets than a settings file may have.
    #[error("it is longer than {LONGEST_FILE} octets")]
    TooLong,
    /// The system doesn't read it.
    #[error(transparent)]
    Failed(FileFailure),
}

impl Unread {
    /// What is told of it on standard output.
    pub fn unusable(self) -> Unusable {
        match self {
            Unread::Failed(FileFailure::Other(Failure::Memory)) => Unusable::Memory,
            Unread::Failed(_) | Unread::TooLong => Unusable::File,
        }
    }
}

/// The octets of a settings file.
pub fn read_octets<'a, S: System>(rt: &S, file: &'a str) -> Result<Vec<u8>, BadFile<'a>> {
    match read_front(rt, file) {
        Ok(octets) if octets.len() as u64 <= LONGEST_FILE => Ok(octets),
        Ok(_octets) => Err(BadFile::Unread(file, Unread::TooLong)),
        Err(error) => {
            let failure = FileFailure::of(error.kind(), "file");
            Err(BadFile::Unread(file, Unread::Failed(failure)))
        }
    }
}

/// The octets of a file: as many as a settings file may have, and one more.
fn read_front<S: System>(rt: &S, file: &str) -> io::Result<Vec<u8>> {
    let mut octets = Vec::new(rt.alloc());
    let file = File::open(rt, file)?;
    let mut front = file.take(LONGEST_FILE + 1);
    front.read_to_end(&mut octets)?;
    Ok(octets)
}

/// The settings of a file.
pub fn settings_of<'a, S: System>(rt: &S, file: &'a str) -> Result<Settings, BadFile<'a>> {
    let octets = read_octets(rt, file)?;
    match read_settings(rt.alloc(), octets.as_slice()) {
        Ok(settings) => Ok(settings),
        Err(why) => Err(BadFile::Refused(octets, why)),
    }
}
