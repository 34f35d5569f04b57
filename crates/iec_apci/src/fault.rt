//! Why a stream of octets holds no further APDU.

use thiserror::Error;

/// What is wrong at the place where an APDU should begin, in the order in which it is tried.
#[derive(Clone, Copy, Debug, PartialEq, Error)]
pub enum ApciFault {
    /// The start octet is not 68 hex.
    #[error("1 Start")]
    Start = 1,
    /// The length octet is not 4 to 253.
    #[error("2 Length")]
    Length = 2,
    /// The control field is none of the three formats. Told once the whole APDU is there.
    #[error("3 Control")]
    Control = 3,
}
