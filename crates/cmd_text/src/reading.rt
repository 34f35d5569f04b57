//! Reading an input, once at a time.
ghost use Rattle.std.specs.Prelude.{◌≡◌, ◌≤◌, ◌≢◌, ◌==◌, true, IfOk, length, position, take};
ghost use Rattle.cmd_text.specs.Reading.{Brings, IsPart};
ghost use Rattle.cmd_text.specs.declared.reading.Stop.TheVariants.{Fault, Memory};

use crate::line::InputLine;
use gw_model::Memory;
use std::alloc::AllocError;
use std::io::{self, BufRead, ErrorKind};
use thiserror::Error;

/// Why the program ends before its input does.
#[derive(Clone, Copy, Debug, Error)]
pub enum Stop {
    /// Reading or writing failed.
    #[error("reading or writing failed")]
    Fault,
    /// Memory ran out.
    #[error("no memory")]
    Memory,
    /// 4,294,967,295 reads didn't reach the end of the input.
    #[error("too many reads")]
    TooManyReads,
}

impl From<io::Error> for Stop {
    ghost from_gives = { λ _ stop. stop ≡ Fault };

    fn from(_error: io::Error) -> Stop {
        Stop::Fault
    }
}

impl From<Memory> for Stop {
    ghost from_gives = { λ _ stop. stop ≡ Memory };

    fn from(_error: Memory) -> Stop {
        Stop::Memory
    }
}

impl From<AllocError> for Stop {
    ghost from_gives = { λ _ stop. stop ≡ Memory };

    fn from(_error: AllocError) -> Stop {
        Stop::Memory
    }
}

/// What one read brought.
#[derive(Clone, Copy)]
pub enum Piece {
    /// Nothing: a signal came first.
    Nothing,
    /// A part of a line.
    Part,
    /// The rest of a line, with its end.
    Line,
    /// The end of the input.
    End,
}

/// Where a line ends in octets.
fn line_end(octets: &[u8]) -> Option<usize>
    ensures { result ≡ position (λ x. x == 10) octets.now }
{
    octets.iter().position(|octet| *octet == b'\n')
}

/// Goes on with the line up to its end: how many octets that takes, and whether they end it.
fn take_part(octets: &[u8], line: &mut InputLine) -> (usize, bool)
    ensures within { result.0 ≤ length octets.now }
    ensures part { IsPart result.1 (take result.0 octets.now) line.old line.new }
    ensures all { result.1 ≢ true → result.0 ≡ length octets.now }
{
    match line_end(octets) {
        Some(end) => {
            line.add(&octets[..end]);
            (end + 1, true)
        }
        None => {
            line.add(octets);
            (octets.len(), false)
        }
    }
}

/// Reads once, and adds what came to the line, up to the line's end.
pub fn read_piece<R: BufRead>(reader: &mut R, line: &mut InputLine) -> Result<Piece, Stop>
    ensures { IfOk result (λ piece.
        Brings piece (R.remaining reader.old) (R.remaining reader.new) line.old line.new) }
{
    let buffer = match reader.fill_buf() {
        Ok(buffer) => buffer,
        Err(error) if error.kind() == ErrorKind::Interrupted => return Ok(Piece::Nothing),
        Err(_) => return Err(Stop::Fault),
    };
    if buffer.is_empty() {
        return Ok(Piece::End);
    }
    let (taken, has_ended) = take_part(buffer, line);
    reader.consume(taken);
    Ok(if has_ended { Piece::Line } else { Piece::Part })
}
