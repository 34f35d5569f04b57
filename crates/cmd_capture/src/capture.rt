//! What workers and the thread that writes share.

use crate::files::Files;
use crate::kept::Kept;
use crate::lines::Lines;
use crate::waiting::{Next, WaitingLines};
use cmd_text::{OnePiece, Pieces, RecordEnd, RecordEndCause};
use gw_model::Memory;
use gw_steps::{Pumps, Reply, Step, StepFault};
use run_clock::Bell;
use std::alloc::Global;
use std::io::Write;
use std::sync::atomic::{AtomicBool, Ordering};
use std::sync::{Mutex, Wait};

/// What the thread that writes waits for before its next turn.
#[derive(Drop)]
enum AwaitedLines {
    /// Nothing.
    Nothing,
    /// That the capture's bell is rung more often than so.
    Ring(u64),
    /// Nothing any more: the capture has ended so.
    Never(RecordEnd),
}

/// The steps of all workers on their way into two files. A worker doesn't wait for them to be written: where too much
/// waits the capture ends.
#[derive(Drop)]
pub struct Capture {
    alloc: Global,
    megabytes: u64,
    is_on: AtomicBool,
    waiting: Mutex<WaitingLines>,
    bell: Bell,
}

impl Capture {
    /// A capture of all steps from the first on, in files of at most so many megabytes each.
    pub fn new(alloc: Global, megabytes: u64) -> Result<Capture, Memory> {
        Ok(Capture {
            alloc,
            megabytes,
            is_on: AtomicBool::new(true),
            waiting: Mutex::new(WaitingLines::new(alloc)?),
            bell: Bell::new(),
        })
    }

    /// One that captures nothing.
    pub fn off(alloc: Global) -> Result<Capture, Memory> {
        let mut waiting = WaitingLines::new(alloc)?;
        waiting.end(RecordEndCause::Closed);
        Ok(Capture {
            alloc,
            megabytes: 0,
            is_on: AtomicBool::new(false),
            waiting: Mutex::new(waiting),
            bell: Bell::new(),
        })
    }

    /// Whether steps are captured still.
    pub fn is_on(&self) -> bool {
        self.is_on.load(Ordering::SeqCst)
    }

    /// What has to be kept of a step before it is made: nothing where it isn't captured.
    pub fn keep(&self, step: &Step) -> Kept {
        if self.is_on() {
            Kept::of(self.alloc, step)
        } else {
            Kept::Nothing
        }
    }

    /// Hands over a step that was made, with its number and its reply.
    pub fn put_step<R: Wait>(
        &self,
        rt: &R,
        kept: Kept,
        number: u64,
        reply: Result<Reply, StepFault>,
    ) {
        match kept {
            Kept::Nothing => {}
            Kept::Line(line) => self.put(rt, Lines::of_step(self.alloc, number, line, reply)),
            Kept::Lost(cause) => self.end(rt, cause),
        }
    }

    /// Hands over pumps that were made, where steps are captured.
    pub fn put_pumps<R: Wait>(&self, rt: &R, pumps: &Pumps<'_>) {
        if self.is_on() {
            self.put(rt, Lines::of_pumps(self.alloc, pumps));
        }
    }

    /// Nothing more is handed over.
    pub fn close<R: Wait>(&self, rt: &R) {
        self.end(rt, RecordEndCause::Closed);
    }

    /// Hands over lines, if there was memory for them.
    fn put<R: Wait>(&self, rt: &R, lines: Result<Lines, Memory>) {
        match lines {
            Ok(lines) if lines.count == 0 => {}
            Ok(lines) => {
                if !self.add(rt, lines) {
                    self.is_on.store(false, Ordering::SeqCst);
                }
                self.bell.ring();
            }
            Err(_) => self.end(rt, RecordEndCause::Memory),
        }
    }

    /// Lets lines wait; whether they, and more, can.
    fn add<R: Wait>(&self, rt: &R, lines: Lines) -> bool {
        self.waiting.lock(rt).add(lines)
    }

    /// Nothing more is captured.
    fn end<R: Wait>(&self, rt: &R, cause: RecordEndCause) {
        self.is_on.store(false, Ordering::SeqCst);
        self.waiting.lock(rt).end(cause);
        self.bell.ring();
    }

    /// Writes the lines of steps and those of the replies as they come, in the order of the steps' numbers, until the
    /// capture is closed and all is written, or it can't go on. Both files are flushed where nothing waits.
    pub fn write_on<R: Wait, W: Write>(&self, rt: &R, steps: &mut W, answers: &mut W) -> RecordEnd {
        let pieces = OnePiece {
            megabytes: self.megabytes,
        };
        self.write_pieces(rt, steps, answers, pieces)
    }

    /// The same, and goes on in further files where these have as much as they may.
    pub fn write_pieces<R: Wait, W: Write + Drop, P: Pieces<W> + Drop>(
        &self,
        rt: &R,
        steps: W,
        answers: W,
        pieces: P,
    ) -> RecordEnd {
        let ended = match Files::new(self.alloc, self.megabytes, steps, answers, pieces) {
            Ok(mut files) => self.write_all(rt, &mut files),
            Err(_) => RecordEnd {
                step: 1,
                cause: RecordEndCause::Memory,
            },
        };
        self.end(rt, ended.cause);
        self.waiting.lock(rt).clear();
        ended
    }

    /// Turn after turn.
    fn write_all<R: Wait, W: Write + Drop, P: Pieces<W> + Drop>(
        &self,
        rt: &R,
        files: &mut Files<W, P>,
    ) -> RecordEnd {
        for _ in rt.forever() {
            match self.turn(rt, files) {
                AwaitedLines::Nothing => {}
                AwaitedLines::Ring(rung) => self.bell.wait(rt, rung),
                AwaitedLines::Never(ended) => return ended,
            }
        }
        unreachable!()
    }

    /// One turn of the thread that writes: writes the lines that have waited longest, or sees to it that all that was written
    /// stands in the files. What it waits for then.
    fn turn<R: Wait, W: Write + Drop, P: Pieces<W> + Drop>(
        &self,
        rt: &R,
        files: &mut Files<W, P>,
    ) -> AwaitedLines {
        let rung = self.bell.ring_count();
        let (done, awaited) = match self.next(rt, files) {
            Next::Write(lines) => (files.take(lines), AwaitedLines::Nothing),
            Next::Wait => (files.flush(), AwaitedLines::Ring(rung)),
            Next::End(cause) => (Err(cause), AwaitedLines::Nothing),
        };
        match done {
            Ok(()) => awaited,
            Err(cause) => AwaitedLines::Never(files.end(cause)),
        }
    }

    /// What is to be done next.
    fn next<R: Wait, W: Write + Drop, P: Pieces<W> + Drop>(
        &self,
        rt: &R,
        files: &mut Files<W, P>,
    ) -> Next {
        let added = files.take_added();
        self.waiting.lock(rt).next(added)
    }
}
