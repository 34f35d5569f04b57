//! When a writer takes its next turn.

use gw_threads::Awaited;
use sim_peers::Random;

/// When a writer takes its next turn: once what it awaits has come, and it doesn't stand still.
#[derive(Clone, Copy)]
pub struct Duty {
    /// Since when it waits.
    since: u64,
    /// When it goes on, if what it awaits has come.
    at: u64,
    /// Its first turn is still to come: it awaits nothing.
    begins: bool,
}

impl Duty {
    /// One that begins at a moment.
    pub fn new(now: u64) -> Duty {
        Duty {
            since: now,
            at: u64::MAX,
            begins: false,
        }
    }

    /// Its worker begins.
    pub fn begin(&mut self, now: u64) {
        *self = Duty {
            begins: true,
            ..Duty::new(now)
        };
    }

    /// It waits from a moment on.
    pub fn wait(&mut self, now: u64) {
        *self = Duty::new(now);
    }

    /// When it is to be looked at, at the latest.
    pub fn due(&self, awaits: Awaited, rings: u64) -> u64 {
        if self.begins {
            return 0;
        }
        if self.at != u64::MAX || awaits.has_come(rings, 0) {
            // Which is at once if it isn't known yet when it goes on.
            return if self.at == u64::MAX { 0 } else { self.at };
        }
        match awaits {
            Awaited::RingOrTime { milliseconds, .. } => self.since.saturating_add(milliseconds),
            Awaited::Nothing | Awaited::Ring(_) => u64::MAX,
        }
    }

    /// Whether it goes on at a moment, at which it may stand still for so many milliseconds.
    pub fn goes_on(
        &mut self,
        now: u64,
        awaits: Awaited,
        rings: u64,
        random: &mut Random,
        hold: u64,
    ) -> bool {
        if self.begins {
            return true;
        }
        if self.at == u64::MAX {
            if !awaits.has_come(rings, now.saturating_sub(self.since)) {
                return false;
            }
            self.at = now.saturating_add(random.below(hold.saturating_add(1)));
        }
        self.at <= now
    }
}
