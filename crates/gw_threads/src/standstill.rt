//! Standstills of the host, by which what came in time would look late.

/// The host stood still where more milliseconds than these have passed since the clock's last turn.
const STANDSTILL_MS: u64 = 1000;

/// How many standstills in a row put a tick off, so that ticks come also on a host that never gets on.
const MOST: u32 = 10;

/// The turns of the clock.
#[derive(Clone, Copy)]
pub struct Turns {
    /// The largest moment of a turn.
    last: u64,
    /// How many turns were behind a standstill, one after the other.
    standstills: u32,
}

impl Turns {
    /// No turn came since a moment, in milliseconds.
    pub fn new(moment: u64) -> Turns {
        Turns {
            last: moment,
            standstills: 0,
        }
    }

    /// A turn comes at a moment: how many milliseconds have passed since the one before, where its tick is put off for that.
    pub fn add(&mut self, moment: u64) -> Option<u64> {
        let passed = moment.saturating_sub(self.last);
        // A clock that goes back doesn't make a later moment look late.
        self.last = self.last.max(moment);
        if passed <= STANDSTILL_MS || self.standstills >= MOST {
            self.standstills = 0;
            return None;
        }
        self.standstills = self.standstills.saturating_add(1);
        Some(passed)
    }
}
