//! Times of day, as lines tell them.

use run_status::Instant;
use std::fmt;

/// The milliseconds of a day, and of a minute.
const DAY_MS: u64 = 86_400_000;

const MINUTE_MS: u64 = 60_000;

/// The milliseconds for which a time of day tells the day too: what it is told of may lie an hour back.
const LONGEST_MS: u64 = 82_800_000;

/// Since when something is, in UTC, at a time when it still is: as the time of day, as `22:13`, where that tells the day
/// too; else as an instant.
#[derive(Clone, Copy)]
pub(crate) struct Since {
    pub(crate) since: u64,
    pub(crate) now: u64,
}

impl fmt::Display for Since {
    fn fmt<W: fmt::Write>(&self, f: &mut fmt::Formatter<W>) -> fmt::Result {
        let Since { since, now } = *self;
        if now.saturating_sub(since) > LONGEST_MS {
            return fmt::Display::fmt(&Instant(since), f);
        }
        let minutes = since % DAY_MS / MINUTE_MS;
        let (hour, minute) = (minutes / 60, minutes % 60);
        write!(f, "{hour:02}:{minute:02}")
    }
}
