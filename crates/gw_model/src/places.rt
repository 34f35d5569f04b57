//! How many peers there can be.

/// How many outstations there can be.
pub const OUTSTATIONS: u8 = 32;

/// How many clients there can be.
pub const CLIENTS: u8 = 8;
