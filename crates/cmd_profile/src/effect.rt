//! What values are multiplied by, and what commands do.

use gw_map::{Operates, Pulses, Rest, Scale};
use std::fmt;

/// What a value is multiplied by, as a fraction.
#[derive(Clone, Copy)]
pub(crate) struct Factor(pub(crate) Scale);

impl fmt::Display for Factor {
    fn fmt<W: fmt::Write>(&self, f: &mut fmt::Formatter<W>) -> fmt::Result {
        let scale = self.0;
        write!(f, "{}/{}", scale.num, scale.den)
    }
}

/// What a command does.
#[derive(Clone, Copy)]
pub(crate) struct Effect(pub(crate) Operates);

impl fmt::Display for Effect {
    fn fmt<W: fmt::Write>(&self, f: &mut fmt::Formatter<W>) -> fmt::Result {
        match self.0 {
            Operates::Single(pulses) | Operates::Double(pulses) => write_pulses(f, pulses),
            Operates::Setpoint(scale) => write_factor(f, Factor(scale)),
        }
    }
}

/// Writes what a set point is multiplied by.
fn write_factor<W: fmt::Write>(f: &mut fmt::Formatter<W>, factor: Factor) -> fmt::Result {
    write!(f, "value times {factor}")
}

/// Writes how an output rests, and how long it is on, by the qualifier of the command, QU.
fn write_pulses<W: fmt::Write>(f: &mut fmt::Formatter<W>, pulses: Pulses) -> fmt::Result {
    let rest = match pulses.rest {
        Rest::Latch => "latch",
        Rest::Short => "short pulse",
    };
    let (short, long) = (pulses.short_ms, pulses.long_ms);
    write!(
        f,
        "QU 0 {rest}; QU 1 {short} ms; QU 2 {long} ms; QU 3 latch"
    )
}
