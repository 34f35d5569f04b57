//! The commit that the program is built from, as far as a file beside it tells it.

use crate::system::System;
use std::{env, fs, io};

/// The name of the file beside the program that tells it.
const FILE: &str = "COMMIT";

/// How many hexadecimal digits name a commit: at least, and at most.
const DIGITS: (usize, usize) = (7, 64);

/// The commit that the program is built from, where the file is there and has one.
pub fn commit_of<S: System>(rt: &S) -> Option<String> {
    let text = text_beside(rt).ok()?;
    is_commit(text.as_str().trim()).then_some(text)
}

/// What the file beside the program says.
fn text_beside<S: System>(rt: &S) -> io::Result<String> {
    let program = env::current_exe(rt)?;
    match program.parent() {
        Some(folder) => fs::read_to_string(rt, folder.join(rt.alloc(), FILE)?),
        None => Err(io::ErrorKind::NotFound.into()),
    }
}

/// Whether a text names a commit.
fn is_commit(text: &str) -> bool {
    let (least, most) = DIGITS;
    least <= text.len() && text.len() <= most && text.bytes().all(|octet| octet.is_ascii_hexdigit())
}
