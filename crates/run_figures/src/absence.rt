//! Why no connection to an outstation stands.

use crate::cause::{Cause, Reason};
use crate::failure::Failure;
use std::fmt;

/// Why no connection to an outstation stands, or why the last one ended.
#[derive(Clone, Copy)]
pub enum Absence {
    /// None was made yet, and none failed.
    Untried,
    /// The last one ended.
    Ended(Cause),
    /// None could be made.
    Unreached(Failure),
}

impl fmt::Display for Absence {
    fn fmt<W: fmt::Write>(&self, f: &mut fmt::Formatter<W>) -> fmt::Result {
        match self {
            Absence::Untried => Ok(()),
            Absence::Ended(cause) => fmt::Display::fmt(&Reason(*cause), f),
            Absence::Unreached(failure) => fmt::Display::fmt(failure, f),
        }
    }
}
