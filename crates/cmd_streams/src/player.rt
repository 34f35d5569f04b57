//! A record that is played, and captured.

use crate::showing::Capture;
use cmd_replay::Player;
use cmd_text::{AnswersLines, Stop, answer_lines};
use gw_map::Settings;
use gw_model::Memory;
use std::alloc::Global;
use std::io::{BufRead, Write};

/// How much of a line is kept: as much as a replay keeps.
const KEPT: usize = 8192;

/// What came of a record.
#[derive(Clone, Copy)]
pub struct Captured {
    /// How many packets were written.
    pub packets: u64,
    /// The first line whose octets were refused, or which is none of a replay; behind such a one nothing is read.
    pub refused: Option<u64>,
    /// Whether the last line has no end, as where the gateway was killed. It is left out.
    pub is_cut: bool,
}

/// What is kept from line to line. A line is played once the next one has begun, since it may be cut.
#[derive(Drop)]
struct Recorded {
    player: Player,
    capture: Capture,
    line: Vec<u8>,
    reply: Vec<u8>,
    /// Whether a line is no line of a replay.
    has_ended: bool,
    refused: Option<u64>,
}

impl Recorded {
    fn new(alloc: Global, settings: Settings) -> Result<Recorded, Memory> {
        let capture = Capture::new(alloc, &settings)?;
        Ok(Recorded {
            player: Player::new(alloc, settings)?,
            capture,
            line: Vec::new(alloc),
            reply: Vec::new(alloc),
            has_ended: false,
            refused: None,
        })
    }

    /// Plays the line before this one, and adds what it shows; whether it goes on.
    fn play(&mut self, number: u64) -> Result<bool, Stop> {
        self.reply.clear();
        let had_refused = self.player.has_refused();
        let goes_on = self
            .player
            .answer(number, self.line.as_slice(), &mut self.reply)?;
        if self.player.has_refused() && !had_refused {
            self.refused = Some(number);
        }
        if goes_on {
            self.capture
                .show(self.line.as_slice(), self.reply.as_slice())?;
        }
        Ok(goes_on)
    }

    /// What came of it, at its end.
    fn outcome(&mut self) -> Result<Captured, Memory> {
        let tape = self.capture.tape();
        tape.end()?;
        Ok(Captured {
            packets: tape.packets(),
            refused: self.refused,
            is_cut: !self.has_ended && !self.line.is_empty(),
        })
    }
}

impl AnswersLines for Recorded {
    ghost use Rattle.cmd_streams.specs.Shown.{AnyText, any_front};

    const KEPT: usize = KEPT;

    ghost KEPT = { 8192 };

    ghost Answers = { AnyText };

    fn answer<W: Write>(&mut self, number: u64, line: &[u8], writer: &mut W) -> Result<bool, Stop> {
        if number > 1 && !self.play(number - 1)? {
            self.has_ended = true;
            return Ok(false);
        }
        self.line.clear();
        self.line.extend_from_slice(line)?;
        let tape = self.capture.tape();
        writer.write_all(tape.ready())?;
        tape.clear();
        Ok(true)
    }

    ghost front_decides = { any_front };
}

/// Plays the lines of a reader on the core, and writes what they and its replies show as a capture file.
///
/// # Errors
///
/// `Fault` where reading or writing fails, `Memory` where memory runs out, and `TooManyReads` where the input has no end.
pub fn capture<R: BufRead, W: Write>(
    alloc: Global,
    settings: Settings,
    reader: &mut R,
    writer: &mut W,
) -> Result<Captured, Stop> {
    let mut recorded = Recorded::new(alloc, settings)?;
    answer_lines(alloc, &mut recorded, reader, writer)?;
    let captured = recorded.outcome()?;
    writer.write_all(recorded.capture.tape().ready())?;
    Ok(captured)
}
