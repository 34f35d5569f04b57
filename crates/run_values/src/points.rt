//! What is known of points besides their values.

use crate::name::Name;
use cmd_text::Names;
use gw_map::{Row, Settings};
use gw_model::ObjectKey;
use std::alloc::{AllocError, Global};
use std::collections::HashMap;

/// What is known of a point besides its value.
#[derive(Drop)]
pub(crate) struct Point {
    /// Its information object.
    pub(crate) object: ObjectKey,
    /// The position of its outstation.
    pub(crate) outstation: u8,
    pub(crate) name: Name,
}

/// The points of a site, in the order of the settings.
#[derive(Drop)]
pub struct Points {
    points: Vec<Point>,
    /// Their positions, by their information objects.
    positions: HashMap<ObjectKey, usize>,
    /// What the outstations are called.
    outstations: Vec<Name>,
}

impl Points {
    /// No points.
    pub fn none(alloc: Global) -> Points {
        Points {
            points: Vec::new(alloc),
            positions: HashMap::new(alloc),
            outstations: Vec::new(alloc),
        }
    }

    /// Those of settings, with their names.
    pub fn of(alloc: Global, settings: &Settings, names: &Names) -> Result<Points, AllocError> {
        let mut outstations = Vec::with_capacity(alloc, settings.outstations().len())?;
        for (position, _) in (0u8..).zip(settings.outstations()) {
            outstations.push(Name::of(alloc, names.of_outstation(position))?)?;
        }
        let mut points = Points {
            points: Vec::with_capacity(alloc, settings.rows().len())?,
            positions: HashMap::new(alloc),
            outstations,
        };
        for row in settings.rows() {
            points.add(alloc, row, names)?;
        }
        Ok(points)
    }

    /// Adds that of a row.
    fn add(&mut self, alloc: Global, row: &Row, names: &Names) -> Result<(), AllocError> {
        let name = names.of_object(row.common_address, row.address);
        let object = ObjectKey {
            common_address: row.common_address,
            address: row.address,
        };
        self.positions.insert(object, self.points.len())?;
        self.points.push(Point {
            object,
            outstation: row.key.outstation,
            name: Name::of(alloc, name)?,
        })?;
        Ok(())
    }

    /// How many there are.
    pub fn count(&self) -> usize {
        self.points.len()
    }

    /// The one at a position.
    pub(crate) fn get(&self, position: usize) -> Option<&Point> {
        self.points.get(position)
    }

    /// The position of the one with a common address and an address.
    pub fn position(&self, common_address: u16, address: u32) -> Option<usize> {
        let object = ObjectKey {
            common_address,
            address,
        };
        self.positions.get(&object).copied()
    }

    /// What the outstations are called, by their positions.
    pub(crate) fn outstations(&self) -> &[Name] {
        &self.outstations
    }

    /// What the outstation at a position is called; empty where it has no name.
    pub(crate) fn name_of_outstation(&self, outstation: u8) -> &str {
        match self.outstations.get(usize::from(outstation)) {
            Some(name) => name.text.as_str(),
            None => "",
        }
    }

    /// The same as a field of CSV.
    pub(crate) fn field_of_outstation(&self, outstation: u8) -> &str {
        match self.outstations.get(usize::from(outstation)) {
            Some(name) => name.field.as_str(),
            None => "",
        }
    }
}
