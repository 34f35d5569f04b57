//! How the record of a run ends.

use gw_model::Memory;
use std::{fmt, io};
use thiserror::Error;

/// Why no further step is recorded.
#[derive(Clone, Copy, Debug, PartialEq, Error)]
pub enum RecordEndCause {
    /// More waited to be written than may wait.
    #[error("too many steps waited to be written")]
    QueueFull,
    /// A file couldn't be written, or a step has no line.
    #[error("it couldn't be written")]
    NotWritten,
    /// A file would have become larger than it may.
    #[error("it has {megabytes} MB")]
    Full { megabytes: u64 },
    /// Memory ran out.
    #[error("no memory")]
    Memory,
    /// The record was closed.
    #[error("the gateway ends")]
    Closed,
}

impl From<Memory> for RecordEndCause {
    fn from(_error: Memory) -> RecordEndCause {
        RecordEndCause::Memory
    }
}

impl From<io::Error> for RecordEndCause {
    fn from(_error: io::Error) -> RecordEndCause {
        RecordEndCause::NotWritten
    }
}

/// How a record ended: at which step, and why. The steps before this one are written, with their replies.
#[derive(Clone, Copy, PartialEq)]
pub struct RecordEnd {
    pub step: u64,
    pub cause: RecordEndCause,
}

impl fmt::Display for RecordEnd {
    fn fmt<W: fmt::Write>(&self, f: &mut fmt::Formatter<W>) -> fmt::Result {
        let RecordEnd { step, cause } = self;
        write!(f, "recording ended at step {step}: {cause}")
    }
}
