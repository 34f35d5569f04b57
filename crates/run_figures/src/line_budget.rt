//! How many lines a peer may have.

/// How many lines may be told within a minute.
const LINES: usize = 6;

/// The milliseconds of a minute.
const MINUTE_MS: u64 = 60_000;

/// Lines of which at most six are told within any minute.
#[derive(Drop)]
pub struct LineBudget {
    /// When the last six were told, if so many were.
    told: [Option<u64>; LINES],
    /// Where the oldest of them stands.
    oldest: usize,
}

impl LineBudget {
    /// None was told.
    pub fn new() -> LineBudget {
        LineBudget {
            told: [None; LINES],
            oldest: 0,
        }
    }

    /// Whether one more may be told at a time, in milliseconds since 1970 in UTC. Where the clock was set back, the last
    /// lines count as told just then.
    pub fn is_open(&mut self, now: u64) -> bool {
        for told in &mut self.told {
            *told = told.map(|at| at.min(now));
        }
        match self.told.get(self.oldest) {
            Some(Some(at)) => now.saturating_sub(*at) >= MINUTE_MS,
            _ => true,
        }
    }

    /// One more is told at a time.
    pub fn spend(&mut self, now: u64) {
        if let Some(told) = self.told.get_mut(self.oldest) {
            *told = Some(now);
        }
        self.oldest = if self.oldest < LINES - 1 {
            self.oldest + 1
        } else {
            0
        };
    }

    /// Whether one more may be told at a time; then it counts as told.
    pub fn take(&mut self, now: u64) -> bool {
        let is_open = self.is_open(now);
        if is_open {
            self.spend(now);
        }
        is_open
    }
}
