//! The files of a capture, two for each of its pieces.

use crate::lines::Lines;
use crate::sorter::Sorter;
use crate::waiting::Amount;
use cmd_text::{Pieces, RecordEnd, RecordEndCause};
use std::alloc::Global;
use std::io::{self, BufWriter, Write};

/// The octets of a megabyte.
const MEGABYTE: u64 = 1_000_000;

/// How many octets of each file are written at once.
const AT_ONCE: usize = 65_536;

/// One of the files: whole lines are written, and no more octets than it may have.
#[derive(Drop)]
struct Written<W: Write + Drop> {
    writer: BufWriter<W>,
    /// How many more octets it may have.
    room: u64,
}

impl<W: Write + Drop> Written<W> {
    fn new(alloc: Global, writer: W, room: u64) -> io::Result<Written<W>> {
        Ok(Written {
            writer: BufWriter::with_capacity(alloc, AT_ONCE, writer)?,
            room,
        })
    }

    /// Whether these lines find room.
    fn has_room(&self, lines: &[u8]) -> bool {
        lines.len() as u64 <= self.room
    }

    /// Adds lines.
    fn add(&mut self, lines: &[u8]) -> io::Result<()> {
        self.writer.write_all(lines)?;
        self.room = self.room.saturating_sub(lines.len() as u64);
        Ok(())
    }
}

/// The two files of a piece.
#[derive(Drop)]
struct Piece<W: Write + Drop> {
    steps: Written<W>,
    answers: Written<W>,
}

impl<W: Write + Drop> Piece<W> {
    /// Two empty files, each of which may have so many megabytes.
    fn new(alloc: Global, megabytes: u64, steps: W, answers: W) -> io::Result<Piece<W>> {
        let room = megabytes.saturating_mul(MEGABYTE);
        Ok(Piece {
            steps: Written::new(alloc, steps, room)?,
            answers: Written::new(alloc, answers, room)?,
        })
    }

    /// Whether these lines find room.
    fn has_room(&self, lines: &Lines) -> bool {
        self.steps.has_room(&lines.steps) && self.answers.has_room(&lines.answers)
    }

    /// Adds lines.
    fn add(&mut self, lines: &Lines) -> io::Result<()> {
        self.steps.add(&lines.steps)?;
        self.answers.add(&lines.answers)
    }

    /// Writes what was added.
    fn flush(&mut self) -> io::Result<()> {
        self.steps.writer.flush()?;
        self.answers.writer.flush()
    }
}

/// The pieces of a capture, one after the other.
#[derive(Drop)]
struct Output<W: Write + Drop, P: Drop> {
    alloc: Global,
    megabytes: u64,
    piece: Piece<W>,
    pieces: P,
    /// The first step that was not added to both files.
    next: u64,
    /// The first step that may not stand in both.
    flushed: u64,
    /// How much was added since that was asked for.
    added: Amount,
}

impl<W: Write + Drop, P: Pieces<W> + Drop> Output<W, P> {
    /// Adds lines, to the next piece where this one has no room for them.
    fn add(&mut self, lines: &Lines) -> Result<(), RecordEndCause> {
        if !self.piece.has_room(lines) {
            self.begin_piece()?;
        }
        if !self.piece.has_room(lines) {
            return Err(RecordEndCause::Full {
                megabytes: self.megabytes,
            });
        }
        let amount = Amount::of(lines);
        self.pieces.make_room(amount.octets as u64)?;
        self.piece.add(lines)?;
        self.next = lines.first.saturating_add(lines.count);
        self.added = self.added.with(amount);
        Ok(())
    }

    /// Goes on with the next piece.
    fn begin_piece(&mut self) -> Result<(), RecordEndCause> {
        self.flush()?;
        let (steps, answers) = self.pieces.next()?;
        self.piece = Piece::new(self.alloc, self.megabytes, steps, answers)?;
        Ok(())
    }

    /// Writes what was added.
    fn flush(&mut self) -> Result<(), RecordEndCause> {
        self.piece.flush()?;
        self.flushed = self.next;
        Ok(())
    }
}

/// The lines of steps and those of the replies on their way into files.
#[derive(Drop)]
pub struct Files<W: Write + Drop, P: Drop> {
    sorter: Sorter,
    output: Output<W, P>,
}

impl<W: Write + Drop, P: Pieces<W> + Drop> Files<W, P> {
    /// The two empty files of the first piece, each of which may have so many megabytes, and what follows them.
    pub fn new(
        alloc: Global,
        megabytes: u64,
        steps: W,
        answers: W,
        pieces: P,
    ) -> io::Result<Files<W, P>> {
        let piece = Piece::new(alloc, megabytes, steps, answers)?;
        Ok(Files {
            sorter: Sorter::new(alloc),
            output: Output {
                alloc,
                megabytes,
                piece,
                pieces,
                next: 1,
                flushed: 1,
                added: Amount::NONE,
            },
        })
    }

    /// How much was added since this was asked last.
    pub fn take_added(&mut self) -> Amount {
        let added = self.output.added;
        self.output.added = Amount::NONE;
        added
    }

    /// Adds lines, and those that came before and stand behind them.
    pub fn take(&mut self, lines: Lines) -> Result<(), RecordEndCause> {
        self.sorter.add(lines)?;
        while let Some(lines) = self.sorter.next() {
            self.output.add(&lines)?;
        }
        Ok(())
    }

    /// Writes what was added, which can then be found.
    pub fn flush(&mut self) -> Result<(), RecordEndCause> {
        self.output.flush()?;
        self.output.pieces.look()
    }

    /// Writes what was added, and tells how the capture ended.
    pub fn end(&mut self, cause: RecordEndCause) -> RecordEnd {
        match self.output.flush() {
            Ok(()) => RecordEnd {
                step: self.output.next,
                cause,
            },
            Err(cause) => RecordEnd {
                step: self.output.flushed,
                cause,
            },
        }
    }
}
