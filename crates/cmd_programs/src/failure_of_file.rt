//! Why a file can't be read or made, in words.

use run_figures::Failure;
use std::io::ErrorKind;
use thiserror::Error;

/// Why a file can't be read or made, as far as it makes a difference to an operator.
#[derive(Clone, Copy, Debug, Error)]
pub enum FileFailure {
    /// The system finds nothing: what isn't there.
    #[error("no such {0}")]
    Missing(&'static str),
    /// A folder stands there.
    #[error("it is a folder")]
    Folder,
    /// Neither a file nor a named pipe stands there.
    #[error("it is neither a file nor a named pipe")]
    Device,
    /// Something else than a folder stands there, or in front of it.
    #[error("it is no folder")]
    NoFolder,
    /// A file stands there, which is let alone.
    #[error("it is there already")]
    Standing,
    /// The disk, or what somebody may have of it, is full.
    #[error("no room is left")]
    NoRoom,
    /// Nothing can be written to the file system.
    #[error("the file system is read-only")]
    ReadOnly,
    /// Anything else.
    #[error(transparent)]
    Other(Failure),
}

impl FileFailure {
    /// That of what the system says; `missing` isn't there where it finds nothing.
    pub fn of(kind: ErrorKind, missing: &'static str) -> FileFailure {
        match kind {
            ErrorKind::NotFound => FileFailure::Missing(missing),
            ErrorKind::IsADirectory => FileFailure::Folder,
            ErrorKind::NotADirectory => FileFailure::NoFolder,
            ErrorKind::AlreadyExists => FileFailure::Standing,
            ErrorKind::StorageFull | ErrorKind::QuotaExceeded => FileFailure::NoRoom,
            ErrorKind::ReadOnlyFilesystem => FileFailure::ReadOnly,
            // A failure's words for it are those of a peer's address.
            ErrorKind::InvalidInput => FileFailure::Other(Failure::Other),
            kind => FileFailure::Other(Failure::from(kind)),
        }
    }
}
