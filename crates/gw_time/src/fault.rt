//! Why octets are no time tag.

use thiserror::Error;

/// What is wrong with a tag, in the order in which it is tried.
#[derive(Clone, Copy, Debug, PartialEq, Error)]
pub enum TagFault {
    /// Milliseconds, minute, hour, month or year is out of its range.
    #[error("1 Field")]
    Field = 1,
    /// The month has no such day.
    #[error("2 Date")]
    Date = 2,
}
