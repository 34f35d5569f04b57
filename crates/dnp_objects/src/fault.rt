//! Why an object part was refused.
ghost use Rattle.std.specs.Prelude.{◌≡◌};

use thiserror::Error;

/// What is wrong with an object header or its objects.
#[derive(Clone, Copy, Debug, PartialEq, Error)]
pub enum HeaderFault {
    /// No such group and variation is known.
    #[error("1 UnknownObject")]
    UnknownObject,
    /// The qualifier isn't known, or not for this object.
    #[error("2 UnknownQualifier")]
    UnknownQualifier,
    /// The part ends inside the header.
    #[error("3 ShortRange")]
    ShortRange,
    /// The stop of a range is below its start.
    #[error("4 StopBeforeStart")]
    StopBeforeStart,
    /// The part ends inside the header's objects.
    #[error("5 ShortData")]
    ShortData,
    /// The part has more than 512 headers.
    #[error("6 TooMany")]
    TooMany,
    /// Memory ran out.
    #[error("7 Memory")]
    Memory,
}

/// The first fault of an object part.
#[derive(Clone, Copy, Debug, PartialEq, Error)]
#[error("{why} at {place}")]
pub struct ObjectFault {
    /// What is wrong.
    pub why: HeaderFault,
    /// The first octet of the header at fault, counted in the part from 0.
    pub place: usize,
}

impl HeaderFault {
    /// This fault, of the header at a place.
    pub(crate) fn at(self, place: usize) -> ObjectFault
        ensures { result ≡ record { why = self; place = place } }
    {
        ObjectFault { why: self, place }
    }
}
