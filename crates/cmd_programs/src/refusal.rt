//! What a program writes: its text on standard output; or, where it was refused something, a word there, and a sentence on
//! standard error. Where the sentence can't be written there is nobody to tell, and the rest is as ever.

use crate::settings_file::BadFile;
use crate::system::System;
use cmd_check::{Unusable, explain};
use std::fmt::Display;
use std::io::{self, BufWriter, Write};
use std::str;

/// The status of a program that was refused something.
pub const REFUSED: u8 = 1;

/// The status of a command line that asks for nothing.
pub const USAGE: u8 = 2;

/// Writes a text on standard output; gives the status.
pub fn write_text<S: System>(rt: &S, text: &[u8]) -> io::Result<u8> {
    let mut writer = BufWriter::new(rt.alloc(), io::writer(rt))?;
    if writer.write_all(text).is_err() || writer.flush().is_err() {
        return Ok(REFUSED);
    }
    Ok(0)
}

/// Writes what was refused; gives the status.
pub fn refuse_for<S: System>(rt: &S, what: &str) -> io::Result<u8> {
    println!(rt; "refused {what}")?;
    Ok(REFUSED)
}

/// Writes why settings can't be used; gives the status.
pub fn refuse<S: System>(rt: &S, why: &Unusable) -> io::Result<u8> {
    println!(rt; "refused {why}")?;
    Ok(REFUSED)
}

/// Writes why a settings file can't be used, and sentences on it, with what stands in front of each; gives the status.
pub fn refuse_file<S: System>(rt: &S, front: &str, bad: &BadFile<'_>) -> io::Result<u8> {
    match bad {
        BadFile::Unread(_, why) => {
            let status = refuse(rt, &why.unusable())?;
            complain(rt, front, bad);
            Ok(status)
        }
        BadFile::Refused(octets, why) => refuse_octets(rt, front, octets.as_slice(), why),
    }
}

/// Writes why the octets of a settings file can't be used, and sentences on all that is wrong with them, with what stands in
/// front of each; gives the status.
pub fn refuse_octets<S: System>(
    rt: &S,
    front: &str,
    octets: &[u8],
    why: &Unusable,
) -> io::Result<u8> {
    let status = refuse(rt, why)?;
    let mut sentences = Vec::new(rt.alloc());
    if explain(rt.alloc(), octets, why, front, &mut sentences).is_ok() {
        tell_texts(rt, "", sentences.as_slice());
    }
    Ok(status)
}

/// Writes lines on standard error, with what stands in front of them.
pub fn tell_texts<S: System>(rt: &S, front: &str, lines: &[u8]) {
    if let Ok(text) = str::from_utf8(lines) {
        let _ = eprint!(rt; "{front}{text}");
    }
}

/// Writes a sentence on standard error, with what stands in front of it.
pub fn complain<S: System, D: Display>(rt: &S, front: &str, sentence: &D) {
    let _ = eprintln!(rt; "{front}{sentence}");
}
