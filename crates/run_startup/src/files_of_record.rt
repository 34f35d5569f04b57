//! The files of a record.

use crate::about::about_run;
use crate::obstacle::Obstacle;
use crate::piece_files::PieceFiles;
use crate::pieces::{FolderPieces, Keeping, begin_run};
use crate::source::Source;
use crate::system::Environment;
use crate::unserved::Unserved;
use cmd_line::RunOptions;
use std::fs::{self, File, OpenOptions};
use std::io;

/// How the name of the file of the replies ends, behind that of the record.
pub(crate) const ANSWERS: &str = ".answers";

/// The files of a record, which are made: that of the steps, and that of the replies.
pub fn record_files<'a, S: Environment>(rt: &S, path: &'a str) -> Result<PieceFiles, Unserved<'a>> {
    let answers_path = format!(in rt.alloc(); "{path}{ANSWERS}")?;
    let steps = match new_file(rt, path) {
        Ok(steps) => steps,
        Err(error) => return Err(Unserved::Hindered(Obstacle::unmade(path, "", error.kind()))),
    };
    match new_file(rt, answers_path.as_str()) {
        Ok(answers) => Ok(PieceFiles { steps, answers }),
        Err(error) => {
            let _ = fs::remove_file(rt, path);
            Err(Unserved::Hindered(Obstacle::unmade(path, ANSWERS, error.kind())))
        }
    }
}

/// A file that is made and may be written.
fn new_file<S: Environment>(rt: &S, path: &str) -> io::Result<File> {
    OpenOptions::new()
        .write(true)
        .create_new(true)
        .open(rt, path)
}

/// The first files of a record in a folder, and what gives the others.
pub fn folder_files<'r, 'a, S: Environment>(
    rt: &'r S,
    folder: &'a str,
    wall: u64,
    source: Source<'_>,
    asked: &RunOptions<'_>,
) -> Result<(PieceFiles, FolderPieces<'r, S>), Unserved<'a>> {
    let keeping = Keeping {
        of_file: u64::from(asked.record_size),
        of_runs: asked.record_keep.map(u64::from),
    };
    let begun = match about_run(rt, source.file, &source.digest) {
        Ok(about) => begin_run(rt, folder, keeping, wall, about.as_str()),
        Err(error) => Err(error),
    };
    begun.map_err(|error| Unserved::Hindered(Obstacle::unmade(folder, "", error.kind())))
}
