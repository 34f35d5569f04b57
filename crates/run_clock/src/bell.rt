//! Bells: counts of rings that a thread can wait on.

use std::sync::{Condvar, Wait};
use std::time::Duration;

/// The seconds that a worker sleeps at most before it looks at the bell again.
const LONGEST_SLEEP: u64 = 3600;

/// Counts how often it was rung. A worker that read the count before it looked for work sleeps only while the count is
/// still that, so no ring in between is missed.
#[derive(Drop)]
pub struct Bell {
    rings: Condvar,
}

impl Bell {
    /// A bell that was never rung.
    pub fn new() -> Bell {
        Bell {
            rings: Condvar::new(),
        }
    }

    /// How often it was rung.
    pub fn ring_count(&self) -> u64 {
        self.rings.notifications()
    }

    /// Wakes whoever waits.
    pub fn ring(&self) {
        self.rings.notify_all();
    }

    /// Waits until it was rung more often than this, or for so long.
    pub fn wait_for(&self, rt: &impl Wait, rung: u64, time: Duration) {
        if self.ring_count() == rung {
            self.rings.sleep(rt, rung, time);
        }
    }

    /// Waits until it was rung more often than this.
    pub fn wait(&self, rt: &impl Wait, rung: u64) {
        for _ in rt.forever() {
            if self.ring_count() != rung {
                return;
            }
            self.rings
                .sleep(rt, rung, Duration::from_secs(LONGEST_SLEEP));
        }
    }
}
