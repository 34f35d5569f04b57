//! Texts in CSV (RFC 4180).

use crate::points::{Point, Points};
use crate::shown::ShownPoint;
use crate::words::InstantIfAny;
use std::fmt;

/// The columns of the values of points.
pub(crate) const VALUE_COLUMNS: &str =
    "outstation,outstation_name,common_address,address,name,type,value,quality,changed,stamp,\
clock,changes\r\n";

/// What is said of a clock that wasn't synchronized.
pub(crate) fn clock_words(is_doubtful: bool) -> &'static str {
    if is_doubtful { "not synchronized" } else { "" }
}

/// The fields that tell which point it is.
#[derive(Clone, Copy)]
pub(crate) struct PointFields<'a> {
    pub(crate) points: &'a Points,
    pub(crate) point: &'a Point,
}

impl<'a> fmt::Display for PointFields<'a> {
    fn fmt<W: fmt::Write>(&self, f: &mut fmt::Formatter<W>) -> fmt::Result {
        let point = self.point;
        write!(
            f,
            "{},{},{},{},{}",
            point.outstation,
            self.points.field_of_outstation(point.outstation),
            point.object.common_address,
            point.object.address,
            point.name.field.as_str()
        )
    }
}

/// A point with its value as a row.
#[derive(Clone, Copy)]
pub(crate) struct CsvRow<'a>(pub(crate) ShownPoint<'a>);

impl<'a> fmt::Display for CsvRow<'a> {
    fn fmt<W: fmt::Write>(&self, f: &mut fmt::Formatter<W>) -> fmt::Result {
        let shown = &self.0;
        let (points, point, observation) = (shown.points, shown.point, &shown.observation);
        write!(
            f,
            "{},{},{},{},{},{},{},{}\r\n",
            PointFields { points, point },
            observation.type_words,
            observation.value,
            observation.quality,
            InstantIfAny(shown.changed),
            InstantIfAny(observation.stamp),
            clock_words(observation.is_doubtful),
            shown.changes
        )
    }
}
