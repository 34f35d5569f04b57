//! What is told of a run in each piece of its record.

use cmd_line::VERSION;
use cmd_programs::{System, commit_of};
use cmd_text::Plain;
use std::io;

/// What is told of a run in each of its pieces: the version, the commit where it is known, and the settings.
pub fn about_run<S: System>(rt: &S, file: &str, digest: &[u8; 32]) -> io::Result<String> {
    let (alloc, file, digest) = (
        rt.alloc(),
        Plain(file),
        hex::encode(rt.alloc(), digest.as_slice())?,
    );
    let commit = match commit_of(rt) {
        Some(commit) => format!(in alloc; "commit: {}\n", commit.as_str().trim())?,
        None => String::new(alloc),
    };
    Ok(format!(in alloc; "version: {VERSION}\n{commit}settings: {file}\nsha256: {digest}\n")?)
}
