//! Time.

/// What tells the time, in milliseconds.
pub trait Clock {
    /// Since any fixed moment.
    fn moment(&self) -> u64;

    /// Since 1970 in UTC.
    fn wall(&self) -> u64;
}
