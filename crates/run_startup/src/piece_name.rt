//! How the files of a folder are named.

use jiff::Timestamp;
use jiff::tz::Offset;
use std::alloc::{AllocError, Global};
use std::io::{self, ErrorKind};

/// How the names of a piece's files end: that of the steps, that of the replies, and the one that tells of both.
pub const STEPS: &str = "run";

pub const ANSWERS: &str = "answers";

pub const ABOUT: &str = "about";

/// What the name of a run, and the number of a piece, look like, with 0 for each digit.
const RUN: &str = "00000000T000000Z";

const NUMBER: &str = "0000";

/// The most pieces that a run may have, so that the order of their names is that of their numbers.
pub const MOST_PIECES: u32 = 9_999;

/// The name of a run that begins at a second since 1970, as `20261129T101500Z`.
pub fn run_name(alloc: Global, second: u64) -> io::Result<String> {
    let Some(instant) = instant_at(second) else {
        return Err(ErrorKind::InvalidInput.into());
    };
    let civil = Offset::UTC.to_datetime(instant);
    let (year, month, day) = (civil.year(), civil.month(), civil.day());
    let (hour, minute, second) = (civil.hour(), civil.minute(), civil.second());
    Ok(format!(in alloc; "{year:04}{month:02}{day:02}T{hour:02}{minute:02}{second:02}Z")?)
}

/// The instant at a second since 1970, if calendars have it.
fn instant_at(second: u64) -> Option<Timestamp> {
    Timestamp::from_second(i64::try_from(second).ok()?).ok()
}

/// Lines, and one behind them that tells a wall time in milliseconds since 1970 as that of the start.
pub fn with_start(alloc: Global, lines: &str, wall: u64) -> io::Result<String> {
    match Timestamp::from_nanosecond(i128::from(wall) * 1_000_000) {
        Ok(instant) => Ok(format!(in alloc; "{lines}start: {instant:.3}\n")?),
        Err(_) => Err(ErrorKind::InvalidInput.into()),
    }
}

/// The name of a piece, as `20261129T101500Z-0001`.
pub fn piece_name(alloc: Global, run: &str, number: u32) -> Result<String, AllocError> {
    format!(in alloc; "{run}-{number:04}")
}

/// The path of a piece's file that ends so.
pub fn path_of(
    alloc: Global,
    folder: &str,
    piece: &str,
    ending: &str,
) -> Result<String, AllocError> {
    format!(in alloc; "{folder}/{piece}.{ending}")
}

/// The run and the piece that a file of this name belongs to, if it is one of a piece.
pub fn run_and_piece(name: &str) -> Option<(&str, &str)> {
    let (piece, ending) = name.split_once('.')?;
    let (run, number) = piece.split_once('-')?;
    let is_one = looks_like(run, RUN) && looks_like(number, NUMBER) && is_ending(ending);
    is_one.then_some((run, piece))
}

/// Whether the name of a piece's file ends so.
fn is_ending(ending: &str) -> bool {
    matches!(ending, STEPS | ANSWERS | ABOUT)
}

/// Whether a text has a digit wherever a pattern has 0, and else what the pattern has.
fn looks_like(text: &str, pattern: &str) -> bool {
    let (text, pattern) = (text.as_bytes(), pattern.as_bytes());
    text.len() == pattern.len()
        && text
            .iter()
            .zip(pattern)
            .all(|(octet, wanted)| fits(*octet, *wanted))
}

/// Whether an octet is a digit where 0 is wanted, and else what is wanted.
fn fits(octet: u8, wanted: u8) -> bool {
    if wanted == b'0' {
        octet.is_ascii_digit()
    } else {
        octet == wanted
    }
}
