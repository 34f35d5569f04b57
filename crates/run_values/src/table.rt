//! The values of points.

use gw_model::{Observation, Quality, Stamp, Value};
use std::alloc::{AllocError, Global};

/// What is shown of a point, and how it came to that.
#[derive(Clone, Copy)]
pub struct PointValue {
    /// Its value, quality and stamp as last shown.
    pub observation: Observation,
    /// When it changed last, in milliseconds since 1970 by the gateway's clock; nothing where it didn't since the gateway began.
    pub changed: Option<u64>,
    /// How often it changed, as far as that was seen.
    pub changes: u64,
}

/// What holds of the table as a whole.
#[derive(Clone, Copy)]
pub struct TableHead {
    /// The moment at which the gateway was looked at last. It never goes back, also where the clock does.
    pub as_of: u64,
    /// How many changes were passed over, since they were no longer kept when the gateway was looked at.
    pub passed_over: u64,
}

/// What is shown of each point, by its position in the settings.
#[derive(Drop)]
pub struct ValueTable {
    values: Vec<PointValue>,
    head: TableHead,
}

impl ValueTable {
    /// A table in which nothing stands, with room for so many points.
    pub fn new(alloc: Global, points: usize) -> Result<ValueTable, AllocError> {
        Ok(ValueTable {
            values: Vec::with_capacity(alloc, points)?,
            head: TableHead {
                as_of: 0,
                passed_over: 0,
            },
        })
    }

    /// What holds of it as a whole.
    pub fn head(&self) -> TableHead {
        self.head
    }

    /// The gateway is looked at now: what changes from here on changes at this moment.
    pub fn look(&mut self, wall: u64) {
        self.head.as_of = self.head.as_of.max(wall);
    }

    /// So many changes are passed over.
    pub fn pass_over(&mut self, count: u64) {
        self.head.passed_over = self.head.passed_over.saturating_add(count);
    }

    /// A point changes: this is news of it.
    pub fn take(&mut self, position: usize, observation: Observation) {
        let as_of = self.head.as_of;
        if let Some(value) = self.values.get_mut(position) {
            *value = PointValue {
                observation,
                changed: Some(as_of),
                changes: value.changes.saturating_add(1),
            };
        }
    }

    /// The points from a position on are shown so. One that the table shows otherwise has changed, by news that were passed
    /// over; what it doesn't have yet is added.
    pub fn show(&mut self, from: usize, shown: &[Observation]) -> Result<(), AllocError> {
        for (place, observation) in shown.iter().enumerate() {
            self.show_one(from.saturating_add(place), *observation)?;
        }
        Ok(())
    }

    fn show_one(&mut self, position: usize, observation: Observation) -> Result<(), AllocError> {
        let as_of = self.head.as_of;
        match self.values.get_mut(position) {
            Some(value) if value.observation.shows_same(&observation) => {}
            Some(value) => {
                value.observation = observation;
                value.changed = Some(as_of);
            }
            None => self.values.push(PointValue {
                observation,
                changed: None,
                changes: 0,
            })?,
        }
        Ok(())
    }

    /// Copies the values from a position on, as many as find room; how many these are.
    pub fn copy(&self, from: usize, room: &mut [PointValue]) -> usize {
        if self.values.len() <= from {
            return 0;
        }
        let count = (self.values.len() - from).min(room.len());
        room[..count].copy_from_slice(&self.values[from..from + count]);
        count
    }
}

impl PointValue {
    /// A value in room that isn't filled yet.
    pub const NONE: PointValue = PointValue {
        observation: Observation {
            common: 0,
            address: 0,
            value: Value::Single(false),
            quality: Quality::GOOD,
            stamp: Stamp::Untimed,
        },
        changed: None,
        changes: 0,
    };

    /// Whether it changed at a moment or later.
    pub fn changed_since(&self, moment: u64) -> bool {
        match self.changed {
            Some(changed) => changed >= moment,
            None => false,
        }
    }
}
