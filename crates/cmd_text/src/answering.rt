//! Answering the lines of an input, one after the other.
ghost use Rattle.std.specs.Prelude.{◌≡◌, ℕ, Bool, List, true, IfOk, IfSome, OnSome};
ghost use Rattle.std.specs.Io.KnownBytes.{Appends, IsAtEnd};
ghost use Rattle.cmd_text.specs.Lines.{FrontDecides, IsAnswered};

use crate::line::InputLine;
use crate::reading::{Piece, Stop, read_piece};
use std::alloc::Global;
use std::io::{BufRead, Write};

/// What answers the lines of an input, one after the other.
pub trait AnswersLines {
    /// How many octets of a line are kept: they are answered as the whole line.
    const KEPT: usize;

    ghost KEPT: { ℕ };

    /// From this to that by answering the line of a number: whether it goes on, and with this text.
    ghost Answers: { Self → ℕ → List ℕ → Bool → List ℕ → Self → Type 0 };

    /// Answers one line; whether it goes on with the next.
    fn answer<W: Write>(&mut self, number: u64, line: &[u8], writer: &mut W) -> Result<bool, Stop>
        ensures { IfOk result (λ goes_on. (text : List ℕ) × Appends (W.contents writer.old) (W.contents writer.new) text
            × Answers self.old number line.now goes_on text self.new) };

    ghost front_decides: { FrontDecides Answers KEPT };
}

/// Answers the lines of a reader to its end, or to the first after which it does not go on; whether it went on after
/// each.
///
/// An interrupted read is tried again.
///
/// # Errors
///
/// `Fault` where reading or writing fails, `Memory` where memory runs out, and `TooManyReads` where 4,294,967,295 reads
/// don't reach the end of the input.
pub fn answer_lines<A: AnswersLines, R: BufRead, W: Write>(
    alloc: Global,
    answerer: &mut A,
    reader: &mut R,
    writer: &mut W,
) -> Result<bool, Stop>
    ensures end { IfOk result (λ goes_on. goes_on ≡ true
        → OnSome (R.remaining reader.old) (IsAtEnd (R.remaining reader.new))) }
    ensures answers { IfOk result (λ goes_on. IfSome (R.remaining reader.old) (λ input.
        IsAnswered A.Answers answerer.old input goes_on
        (W.contents writer.old) (W.contents writer.new) answerer.new)) }
{
    let mut line = InputLine::new(alloc, A::KEPT)?;
    for _read in 0..u32::MAX {
        match read_piece(reader, &mut line)? {
            Piece::Nothing | Piece::Part => {}
            Piece::Line => {
                if !answerer.answer(line.number(), line.octets(), writer)? {
                    return Ok(false);
                }
                line.begin_next();
            }
            Piece::End => return answerer.answer(line.number(), line.octets(), writer),
        }
    }
    Err(Stop::TooManyReads)
}
