//! How many octets an ASDU and its parts have (IEC 60870-5-101, 7.1 and 7.2).

/// The most that an ASDU has in IEC 60870-5-104, behind the control field of its APDU.
pub const ASDU_OCTETS: usize = 249;

/// Its header: type, variable structure qualifier, cause, originator and common address.
pub const HEADER_OCTETS: usize = 6;

/// An information object address.
pub const ADDRESS_OCTETS: usize = 3;

/// A time tag, CP56Time2a.
pub const TAG_OCTETS: usize = 7;
