//! What a worker waits for between two of its turns.

use run_shared::Bell;
use std::sync::Wait;
use std::time::Duration;

/// What a worker waits for before its next turn. A bell that was rung since its rings were counted lets it go on at once.
#[derive(Clone, Copy)]
pub enum Awaited {
    /// Nothing.
    Nothing,
    /// That its bell is rung more often than so.
    Ring(u64),
    /// The same, but for so many milliseconds at most.
    RingOrTime { rung: u64, milliseconds: u64 },
}

impl Awaited {
    /// Waits for it; not at all if there is no bell.
    pub fn wait<R: Wait>(self, rt: &R, bell: Option<&Bell>) {
        let Some(bell) = bell else {
            return;
        };
        match self {
            Awaited::Nothing => {}
            Awaited::Ring(rung) => bell.wait(rt, rung),
            Awaited::RingOrTime { rung, milliseconds } => {
                bell.wait_for(rt, rung, Duration::from_millis(milliseconds));
            }
        }
    }

    /// Whether it has come if the bell was rung so often, and so many milliseconds have passed.
    pub fn has_come(self, rings: u64, passed: u64) -> bool {
        match self {
            Awaited::Nothing => true,
            Awaited::Ring(rung) => rings != rung,
            Awaited::RingOrTime { rung, milliseconds } => rings != rung || passed >= milliseconds,
        }
    }
}
