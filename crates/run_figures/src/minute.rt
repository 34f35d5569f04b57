//! How much of something there was in the last minute.

/// How many looks a minute has, a second apart.
const LOOKS: usize = 60;

/// A count that only rises, as it was at each of the last looks, a second apart.
#[derive(Clone, Copy)]
pub struct LastMinute {
    /// What it was, in a ring.
    counts: [u64; LOOKS],
    /// Where the oldest of them stands.
    oldest: usize,
}

impl LastMinute {
    /// Of a count that was 0.
    pub fn new() -> LastMinute {
        LastMinute {
            counts: [0; LOOKS],
            oldest: 0,
        }
    }

    /// A look finds the count so.
    pub fn look(&mut self, count: u64) {
        if let Some(oldest) = self.counts.get_mut(self.oldest) {
            *oldest = count;
        }
        self.oldest = self.oldest.wrapping_add(1) % LOOKS;
    }

    /// By how much it rose in the last minute, where it is so now.
    pub fn rise(&self, count: u64) -> u64 {
        let before = self.counts.get(self.oldest).copied().unwrap_or(0);
        count.saturating_sub(before)
    }
}
