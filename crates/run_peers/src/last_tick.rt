//! Whether the core's clock goes on.

use std::sync::atomic::{AtomicU64, Ordering};

/// The moment of the last tick of the core.
#[derive(Drop)]
pub struct LastTick {
    last: AtomicU64,
}

impl LastTick {
    /// No tick was made since a moment.
    pub fn new(moment: u64) -> LastTick {
        LastTick {
            last: AtomicU64::new(moment),
        }
    }

    /// A tick was made at a moment.
    pub fn note(&self, moment: u64) {
        self.last.store(moment, Ordering::SeqCst);
    }

    /// For how many milliseconds none was made, at a moment.
    pub fn age(&self, moment: u64) -> u64 {
        moment.saturating_sub(self.last.load(Ordering::SeqCst))
    }
}
