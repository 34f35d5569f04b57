//! The runs that stand in a folder.

use crate::piece_name::{ABOUT, path_of, piece_name, run_and_piece};
use std::alloc::Global;
use std::collections::BTreeMap;
use std::fs::{self, File};
use std::io::{self, ErrorKind};
use std::rt::Files;

/// The files of a run.
#[derive(Drop)]
pub struct Run {
    /// Their names.
    files: Vec<String>,
    /// How many octets they have together.
    octets: u64,
}

/// The runs of a folder.
#[derive(Drop)]
pub struct Listing {
    /// By their names, so the oldest comes first.
    runs: BTreeMap<String, Run>,
    /// The last piece of the youngest.
    last: Option<String>,
}

/// Whether a run may be taken away.
#[derive(Drop)]
enum Hold {
    /// It may, while the lock on its first `.about` is held.
    Held(File),
    /// It may: this file is gone already.
    Gone,
    /// A gateway has it under way, or it can't be told.
    Busy,
}

impl Listing {
    /// The runs that stand in a folder now.
    pub fn read<R: Files<File = File> + AllocGlobal + Clone + Drop>(
        rt: &R,
        folder: &str,
    ) -> io::Result<Listing> {
        let mut listing = Listing {
            runs: BTreeMap::new(rt.alloc()),
            last: None,
        };
        for entry in fs::read_dir(rt, folder)? {
            match entry {
                Ok(entry) => {
                    let octets = entry.metadata().map_or(0, |metadata| metadata.len());
                    listing.add(rt.alloc(), entry.file_name(), octets)?;
                }
                // A name that is no text is none of a piece.
                Err(error) if error.kind() == ErrorKind::InvalidFilename => {}
                Err(error) => return Err(error),
            }
        }
        Ok(listing)
    }

    /// Adds a file of so many octets, if it is one of a piece.
    fn add(&mut self, alloc: Global, file: &str, octets: u64) -> io::Result<()> {
        let Some((run, piece)) = run_and_piece(file) else {
            return Ok(());
        };
        if self
            .last
            .as_ref()
            .map_or(true, |last| last.as_str() < piece)
        {
            self.last = Some(String::from_str(alloc, piece)?);
        }
        let name = String::from_str(alloc, file)?;
        match self.runs.get_mut(run) {
            Some(known) => known.add(name, octets),
            None => {
                let mut new = Run {
                    files: Vec::new(alloc),
                    octets: 0,
                };
                new.add(name, octets)?;
                self.runs.insert(String::from_str(alloc, run)?, new)?;
                Ok(())
            }
        }
    }

    /// Whether a run of this name stands there.
    pub fn has(&self, run: &str) -> bool {
        self.runs.contains_key(run)
    }

    /// The name of the last piece of the youngest run, if there is one.
    pub fn into_last(self) -> Option<String> {
        self.last
    }

    /// How many octets all runs but this one have.
    pub fn octets_beside(&self, run: &str) -> u64 {
        let mut octets: u64 = 0;
        for (name, other) in &self.runs {
            if name.as_str() != run {
                octets = octets.saturating_add(other.octets);
            }
        }
        octets
    }

    /// Takes away runs, the oldest first, until those beside this one, which isn't touched, have so many octets at most; how
    /// many they have then. A run that can't be taken away stays.
    pub fn take_away_beside<R: Files<File = File> + AllocGlobal>(
        &self,
        rt: &R,
        folder: &str,
        run: &str,
        most: u64,
    ) -> io::Result<u64> {
        let mut octets = self.octets_beside(run);
        for (name, other) in &self.runs {
            if octets <= most {
                break;
            }
            if name.as_str() != run && other.take_away(rt, folder, name.as_str())? {
                octets = octets.saturating_sub(other.octets);
            }
        }
        Ok(octets)
    }
}

impl Run {
    /// Adds a file of so many octets.
    fn add(&mut self, file: String, octets: u64) -> io::Result<()> {
        self.files.push(file)?;
        self.octets = self.octets.saturating_add(octets);
        Ok(())
    }

    /// Takes its files away, the first `.about` last, unless a gateway has the run under way; whether all are gone.
    fn take_away<R: Files<File = File> + AllocGlobal>(
        &self,
        rt: &R,
        folder: &str,
        name: &str,
    ) -> io::Result<bool> {
        let piece = piece_name(rt.alloc(), name, 1)?;
        let first = path_of(rt.alloc(), folder, piece.as_str(), ABOUT)?;
        let hold = hold_of(rt, first.as_str());
        if matches!(&hold, Hold::Busy) {
            return Ok(false);
        }
        let mut is_gone = true;
        for file in &self.files {
            let path = format!(in rt.alloc(); "{folder}/{file}")?;
            if path.as_str() != first.as_str() {
                is_gone &= is_removed(fs::remove_file(rt, path.as_str()));
            }
        }
        Ok(is_gone && is_removed(fs::remove_file(rt, first.as_str())))
    }
}

/// The lock on the first `.about` of a run, if nobody has it.
fn hold_of<R: Files<File = File>>(rt: &R, path: &str) -> Hold {
    match File::open(rt, path) {
        Ok(file) => match file.try_lock() {
            Ok(()) => Hold::Held(file),
            Err(_) => Hold::Busy,
        },
        Err(error) if error.kind() == ErrorKind::NotFound => Hold::Gone,
        Err(_) => Hold::Busy,
    }
}

/// Whether a file is gone, by what came of taking it away.
fn is_removed(removed: io::Result<()>) -> bool {
    match removed {
        Ok(()) => true,
        Err(error) => error.kind() == ErrorKind::NotFound,
    }
}
