//! Why octets are no ASDU with process information.
use thiserror::Error;

/// What is wrong with an ASDU, by its first fault.
#[derive(Clone, Copy, Debug, PartialEq, Error)]
pub enum AsduFault {
    /// It ends inside its header or its objects.
    #[error("1 Short")]
    Short = 1,
    /// Octets follow its objects.
    #[error("2 Long")]
    Long = 2,
    /// It is of another type.
    #[error("3 UnknownType")]
    UnknownType = 3,
    /// It has no object.
    #[error("4 ZeroObjects")]
    ZeroObjects = 4,
    /// A reserved bit of an information element is set.
    #[error("5 Reserved")]
    Reserved = 5,
    /// A time tag means no stamp.
    #[error("6 Tag")]
    Tag = 6,
    /// Memory ran out.
    #[error("7 Memory")]
    Memory = 7,
}
