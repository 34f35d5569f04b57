//! The pieces of a run that is taken down, one after another.

use crate::piece_files::{PieceFiles, RunUnderWay};
use crate::piece_name::MOST_PIECES;
use cmd_text::{Pieces, RecordEndCause};
use std::fs::File;
use std::io::{self, ErrorKind};
use std::rt::Files;

/// How much a folder is to keep.
#[derive(Clone, Copy)]
pub struct Keeping {
    /// The most megabytes that a file of a piece may have.
    pub of_file: u64,
    /// The most megabytes that all runs may have together, where that is bounded.
    pub of_runs: Option<u64>,
}

/// How many writes lie between two looks at whether the files still stand; at rest there are ten a second.
const LOOKS: u8 = 8;

/// The pieces behind the first of a run that is taken down.
#[derive(Drop)]
pub struct FolderPieces<'a, R> {
    run: RunUnderWay<'a, R>,
    keeping: Keeping,
    /// How often something was written, modulo `LOOKS`.
    written: u8,
}

/// Begins a run in a folder at a wall time: the files of its first piece, and what gives the others. `about` are the lines that
/// tell of the run in each piece.
///
/// # Errors
///
/// What the system says where a file of the first piece can't be made, and `StorageFull` where there is no room for them.
pub fn begin_run<'a, R: Files<File = File> + AllocGlobal + Clone + Drop>(
    rt: &'a R,
    folder: &str,
    keeping: Keeping,
    wall: u64,
    about: &str,
) -> io::Result<(PieceFiles, FolderPieces<'a, R>)> {
    let mut run = RunUnderWay::begin(rt, folder, wall, about, keeping.of_runs)?;
    match run.next_piece()? {
        Some(files) => {
            let pieces = FolderPieces {
                run,
                keeping,
                written: 0,
            };
            Ok((files, pieces))
        }
        None => Err(ErrorKind::StorageFull.into()),
    }
}

impl<'a, R: Files<File = File> + AllocGlobal + Clone + Drop> Pieces<File> for FolderPieces<'a, R> {
    fn next(&mut self) -> Result<(File, File), RecordEndCause> {
        match self.run.next_piece() {
            Ok(Some(files)) => Ok((files.steps, files.answers)),
            Ok(None) => Err(self.full()),
            Err(error) => Err(cause_of(&error)),
        }
    }

    fn make_room(&mut self, octets: u64) -> Result<(), RecordEndCause> {
        match self.run.make_room(octets) {
            Ok(true) => Ok(()),
            Ok(false) => Err(self.full()),
            Err(error) => Err(cause_of(&error)),
        }
    }

    fn look(&mut self) -> Result<(), RecordEndCause> {
        self.written = self.written.wrapping_add(1) % LOOKS;
        if self.written != 0 {
            return Ok(());
        }
        match self.run.stands() {
            Ok(true) => Ok(()),
            Ok(false) => Err(RecordEndCause::NotWritten),
            Err(error) => Err(cause_of(&error)),
        }
    }
}

impl<'a, R> FolderPieces<'a, R> {
    /// That the record has as much as it may: all runs together, or this one, whose pieces are as many as their numbers allow.
    fn full(&self) -> RecordEndCause {
        let of_pieces = self.keeping.of_file.saturating_mul(u64::from(MOST_PIECES));
        RecordEndCause::Full {
            megabytes: self.keeping.of_runs.unwrap_or(of_pieces),
        }
    }
}

/// Why a record ends, by what the system says.
fn cause_of(error: &io::Error) -> RecordEndCause {
    match error.kind() {
        ErrorKind::OutOfMemory => RecordEndCause::Memory,
        _ => RecordEndCause::NotWritten,
    }
}
