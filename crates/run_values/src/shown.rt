//! What is shown of points and of observations, whatever form it has.

use crate::points::{Point, Points};
use crate::table::PointValue;
use crate::words::{QualityLetters, ValueWords, instant_of, type_words};
use gw_model::Observation;

/// What is shown of an observation.
#[derive(Clone, Copy)]
pub(crate) struct ShownObservation {
    /// Its type, in words.
    pub(crate) type_words: &'static str,
    pub(crate) value: ValueWords,
    pub(crate) quality: QualityLetters,
    /// The instant of its stamp, in milliseconds since 1970, if it has one.
    pub(crate) stamp: Option<u64>,
    /// Whether the clock that told this instant wasn't synchronized.
    pub(crate) is_doubtful: bool,
}

impl ShownObservation {
    /// What is shown of this one.
    pub(crate) fn of(observation: &Observation) -> ShownObservation {
        let (stamp, is_doubtful) = instant_of(observation.stamp);
        ShownObservation {
            type_words: type_words(observation.value),
            value: ValueWords(observation.value),
            quality: QualityLetters(observation.quality),
            stamp,
            is_doubtful,
        }
    }
}

/// What is shown of a point.
#[derive(Clone, Copy)]
pub(crate) struct ShownPoint<'a> {
    /// All points, which know what their outstations are called.
    pub(crate) points: &'a Points,
    pub(crate) point: &'a Point,
    pub(crate) observation: ShownObservation,
    /// When it changed last, in milliseconds since 1970, if it did.
    pub(crate) changed: Option<u64>,
    /// How often it changed.
    pub(crate) changes: u64,
}

impl<'a> ShownPoint<'a> {
    /// What is shown of one of some points, with its value.
    pub(crate) fn of(points: &'a Points, point: &'a Point, value: &PointValue) -> ShownPoint<'a> {
        ShownPoint {
            points,
            point,
            observation: ShownObservation::of(&value.observation),
            changed: value.changed,
            changes: value.changes,
        }
    }

    /// What its outstation is called; empty where that has no name.
    pub(crate) fn outstation_name(&self) -> &'a str {
        self.points.name_of_outstation(self.point.outstation)
    }
}
