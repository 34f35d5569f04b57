//! Virtual time.

use run_clock::Clock;
use std::cell::Cell;

/// The milliseconds from 1970 to the first moment.
const BEGINNING: u64 = 1_790_000_000_000;

/// A clock that stands still until it is set.
#[derive(Drop)]
pub struct VirtualClock {
    moment: Cell<u64>,
    /// How far the wall clock is ahead, in milliseconds.
    ahead: Cell<u64>,
}

impl VirtualClock {
    /// The first moment.
    pub fn new() -> VirtualClock {
        VirtualClock {
            moment: Cell::new(0),
            ahead: Cell::new(0),
        }
    }

    /// A moment comes.
    pub fn set(&self, moment: u64) {
        self.moment.set(moment);
    }

    /// The wall clock jumps: it is so far ahead of the first moment's time from now on.
    pub fn jump(&self, ahead: u64) {
        self.ahead.set(ahead);
    }
}

impl Clock for VirtualClock {
    fn moment(&self) -> u64 {
        self.moment.get()
    }

    fn wall(&self) -> u64 {
        BEGINNING
            .saturating_add(self.moment.get())
            .saturating_add(self.ahead.get())
    }
}
