//! Lines of a sequence of events.

use crate::csv_text::{PointFields, clock_words};
use crate::points::Points;
use crate::shown::ShownObservation;
use crate::words::InstantIfAny;
use gw_model::Observation;
use run_status::Instant;
use std::fmt;

/// The columns of a sequence of events.
pub const EVENT_COLUMNS: &str =
    "time,stamp,clock,outstation,outstation_name,common_address,address,name,type,value,quality,cause\n";

/// A spontaneous observation.
#[derive(Clone, Copy)]
pub struct Event {
    /// When the gateway told it, in milliseconds since 1970.
    pub wall: u64,
    pub observation: Observation,
}

/// An event as a line.
#[derive(Clone, Copy)]
pub struct EventLine<'a> {
    pub points: &'a Points,
    pub event: &'a Event,
}

impl<'a> fmt::Display for EventLine<'a> {
    fn fmt<W: fmt::Write>(&self, f: &mut fmt::Formatter<W>) -> fmt::Result {
        let which = Which {
            points: self.points,
            observation: &self.event.observation,
        };
        let shown = ShownObservation::of(which.observation);
        write!(
            f,
            "{},{},{},{which},{},{},{},spontaneous\n",
            Instant(self.event.wall),
            InstantIfAny(shown.stamp),
            clock_words(shown.is_doubtful),
            shown.type_words,
            shown.value,
            shown.quality
        )
    }
}

/// Which point an observation is of.
#[derive(Clone, Copy)]
struct Which<'a> {
    points: &'a Points,
    observation: &'a Observation,
}

impl<'a> fmt::Display for Which<'a> {
    fn fmt<W: fmt::Write>(&self, f: &mut fmt::Formatter<W>) -> fmt::Result {
        let Which {
            points,
            observation,
        } = *self;
        let position = points.position(observation.common, observation.address);
        match position.and_then(|position| points.get(position)) {
            Some(point) => fmt::Display::fmt(&PointFields { points, point }, f),
            None => write_unnamed(f, observation),
        }
    }
}

/// Writes which point it is by its addresses alone.
fn write_unnamed<W: fmt::Write>(
    f: &mut fmt::Formatter<W>,
    observation: &Observation,
) -> fmt::Result {
    let (common, address) = (observation.common, observation.address);
    write!(f, ",,{common},{address},")
}

/// That events were left out.
#[derive(Clone, Copy)]
pub struct Gap {
    /// When the last of them was.
    pub wall: u64,
    /// How many.
    pub count: u64,
}

impl Gap {
    /// None was.
    pub const NONE: Gap = Gap { wall: 0, count: 0 };

    /// With so many more, of which the last was at a moment.
    pub fn with(self, wall: u64, count: u64) -> Gap {
        Gap {
            wall,
            count: self.count.saturating_add(count),
        }
    }
}

/// The line in their place.
#[derive(Clone, Copy)]
pub struct GapLine(pub Gap);

impl fmt::Display for GapLine {
    fn fmt<W: fmt::Write>(&self, f: &mut fmt::Formatter<W>) -> fmt::Result {
        let Gap { wall, count } = self.0;
        let instant = Instant(wall);
        write!(f, "{instant},,,,,,,,,{count},,left out\n")
    }
}
