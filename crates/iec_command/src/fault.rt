//! Why octets are no command.
use thiserror::Error;

/// What is wrong with an ASDU in control direction, by its first fault.
#[derive(Clone, Copy, Debug, PartialEq, Error)]
pub enum CommandFault {
    /// It ends inside its header or its object.
    #[error("1 Short")]
    Short = 1,
    /// Octets follow its object.
    #[error("2 Long")]
    Long = 2,
    /// It is of another type.
    #[error("3 UnknownType")]
    UnknownType = 3,
    /// Its variable structure qualifier isn't that of one object under SQ 0.
    #[error("4 Count")]
    Count = 4,
}
