//! How a connection ended, of which two workers tell.

use gw_threads::WorkerEnd;
use run_journal::{Cause, Failure};
use run_peers::shut;
use std::io::ErrorKind;
use std::net::TcpStream;
use std::sync::atomic::{AtomicU64, Ordering};

/// Neither worker has ended yet.
const NEITHER: u64 = 0;

/// The reader ended first.
const READER: u64 = 1;

/// The writer ended first.
const WRITER: u64 = 2;

/// Which of a connection's workers ended first, and why reading or writing failed.
#[derive(Drop)]
pub struct Ending {
    first: AtomicU64,
    not_read: AtomicU64,
    not_written: AtomicU64,
}

impl Ending {
    /// Both work.
    pub fn new() -> Ending {
        Ending {
            first: AtomicU64::new(NEITHER),
            not_read: AtomicU64::new(0),
            not_written: AtomicU64::new(0),
        }
    }

    /// The reader has ended, and its connection with it.
    pub fn end_reader(&self, stream: &TcpStream) {
        self.note_reader();
        shut(stream);
    }

    /// The writer has ended, and its connection with it.
    pub fn end_writer(&self, stream: &TcpStream) {
        self.note_writer();
        shut(stream);
    }

    /// Nothing more comes for the reader.
    pub fn note_reader(&self) {
        keep_first(&self.first, READER);
    }

    /// Nothing more is taken of the writer.
    fn note_writer(&self) {
        keep_first(&self.first, WRITER);
    }

    /// Reading failed.
    pub fn note_not_read(&self, kind: ErrorKind) {
        keep_first(&self.not_read, Failure::from(kind).code());
        self.note_reader();
    }

    /// Writing failed. That is noted before the writer tells it to the core, by which the reader ends.
    pub fn note_not_written(&self, kind: ErrorKind) {
        keep_first(&self.not_written, Failure::from(kind).code());
        self.note_writer();
    }

    /// Why the connection ended: what the reader met, unless that is only that the writer had ended before.
    pub fn cause(&self, reader: WorkerEnd, writer: WorkerEnd) -> Cause {
        match reader {
            WorkerEnd::EndOfInput | WorkerEnd::ReadFault | WorkerEnd::Stopping
                if self.first.load(Ordering::SeqCst) == WRITER => { self.cause_of(writer) }
            _ => self.cause_of(reader),
        }
    }

    /// Why a worker ended.
    fn cause_of(&self, end: WorkerEnd) -> Cause {
        match end {
            WorkerEnd::Closed(why) => Cause::Closed(why),
            WorkerEnd::EndOfInput => Cause::EndOfInput,
            WorkerEnd::ReadFault => Cause::NotRead(failure_in(&self.not_read)),
            WorkerEnd::Unanswered => Cause::Unanswered,
            WorkerEnd::LinkUnanswered => Cause::LinkUnanswered,
            WorkerEnd::WriteFault => Cause::NotWritten(failure_in(&self.not_written)),
            WorkerEnd::Malformed(fault) => Cause::NotApdus(fault),
            WorkerEnd::Memory => Cause::Memory,
            WorkerEnd::Stopping => Cause::GatewayEnds,
        }
    }
}

/// Keeps a number above 0 where none is kept yet.
fn keep_first(kept: &AtomicU64, number: u64) {
    let _ = kept.compare_exchange(0, number, Ordering::SeqCst, Ordering::SeqCst);
}

/// Why a call to the system failed.
fn failure_in(code: &AtomicU64) -> Failure {
    Failure::from_code(code.load(Ordering::SeqCst))
}
