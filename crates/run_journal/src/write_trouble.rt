//! Why a file can't be written.

use run_figures::Failure;
use std::io::ErrorKind;
use thiserror::Error;

/// Why a file or a pipe can't be written, as far as it makes a difference to an operator.
#[derive(Clone, Copy, Debug, Error)]
pub enum WriteTrouble {
    /// Nobody reads the pipe any more.
    #[error("nobody reads the pipe")]
    NoReader,
    /// The disk, or what somebody may have of it, is full.
    #[error("no room is left")]
    NoRoom,
    /// Anything else.
    #[error(transparent)]
    Other(Failure),
}

impl WriteTrouble {
    /// That of what the system says.
    pub fn of(kind: ErrorKind) -> WriteTrouble {
        match kind {
            ErrorKind::BrokenPipe => WriteTrouble::NoReader,
            ErrorKind::StorageFull | ErrorKind::QuotaExceeded => WriteTrouble::NoRoom,
            kind => WriteTrouble::Other(Failure::from(kind)),
        }
    }
}
