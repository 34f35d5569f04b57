//! Moments and spans of time.

use jiff::Timestamp;
use std::fmt;

/// A moment, by its milliseconds since 1970, as `2023-11-14T22:13:20Z`; `-` past the year 9999.
#[derive(Clone, Copy)]
pub struct Moment(pub u64);

impl fmt::Display for Moment {
    fn fmt<W: fmt::Write>(&self, f: &mut fmt::Formatter<W>) -> fmt::Result {
        match Timestamp::from_second((self.0 / 1000) as i64) {
            Ok(moment) => write!(f, "{moment}"),
            Err(_) => f.write_str("-"),
        }
    }
}

/// When something was, as `2023-11-14T22:13:20.000Z`; `-` past the year 9999.
#[derive(Clone, Copy)]
pub struct Instant(pub u64);

impl fmt::Display for Instant {
    fn fmt<W: fmt::Write>(&self, f: &mut fmt::Formatter<W>) -> fmt::Result {
        match Timestamp::from_nanosecond(i128::from(self.0) * 1_000_000) {
            Ok(instant) => write!(f, "{instant:.3}"),
            Err(_) => f.write_str("-"),
        }
    }
}

/// A span of time, by its milliseconds, as `12 s`, `3 min 20 s`, `5 h 12 min` or `3 d 4 h`.
#[derive(Clone, Copy)]
pub struct Span(pub u64);

impl fmt::Display for Span {
    fn fmt<W: fmt::Write>(&self, f: &mut fmt::Formatter<W>) -> fmt::Result {
        let seconds = self.0 / 1000;
        if seconds < 60 {
            return write!(f, "{seconds} s");
        }
        let (whole, unit, rest, lower) = in_two_units(seconds);
        write!(f, "{whole} {unit} {rest} {lower}")
    }
}

/// A minute or more, by its seconds, in the largest unit that it fills and the next one.
fn in_two_units(seconds: u64) -> (u64, &'static str, u64, &'static str) {
    let (minutes, hours) = (seconds / 60, seconds / 3600);
    if hours == 0 {
        (minutes, "min", seconds % 60, "s")
    } else if hours < 24 {
        (hours, "h", minutes % 60, "min")
    } else {
        (hours / 24, "d", hours % 24, "h")
    }
}
