//! Lists that are read.

use crate::cell::KeyValue;
use cmd_profile::kind_word;
use gw_map::{Control, Row, Settings};
use gw_model::{Kind, ObjectKey, PointKey};
use std::alloc::AllocError;
use std::fmt::Write;

/// A list of points and controls.
#[derive(Drop)]
pub struct List {
    /// Its rows, in their order.
    pub rows: Vec<ListRow>,
}

/// A row of a list.
#[derive(Drop)]
pub struct ListRow {
    /// Its number in the spreadsheet, where the names of the columns are row 1.
    pub row: usize,
    /// What it is called; empty where it has no name.
    pub name: String,
    /// More about it.
    pub description: String,
    /// What it is of.
    pub listed: Listed,
    /// The common address that stands in it.
    pub common_address: Option<u16>,
    /// The keys of its table of the settings that stand in it.
    pub(crate) keys: Vec<KeyValue>,
}

/// What a row of a list is of. Outstations go by their positions.
#[derive(Clone, Copy, PartialEq)]
pub enum Listed {
    /// An outstation, which it names.
    Outstation(u8),
    /// A point, and its address.
    Point(PointKey, u32),
    /// A control.
    Control {
        /// The outstation.
        outstation: u8,
        /// The index of the output.
        index: u16,
        /// The address.
        address: u32,
    },
}

impl Listed {
    /// The outstation.
    pub fn outstation(self) -> u8 {
        match self {
            Listed::Outstation(outstation) => outstation,
            Listed::Point(key, _) => key.outstation,
            Listed::Control { outstation, .. } => outstation,
        }
    }

    /// The address; none of an outstation.
    pub fn address(self) -> Option<u32> {
        match self {
            Listed::Outstation(_) => None,
            Listed::Point(_, address) => Some(address),
            Listed::Control { address, .. } => Some(address),
        }
    }

    /// Whether it is a point.
    pub fn is_point(self) -> bool {
        matches!(self, Listed::Point(..))
    }

    /// Whether it is a control.
    pub fn is_control(self) -> bool {
        matches!(self, Listed::Control { .. })
    }

    /// That of a point of settings.
    fn of_point(point: &Row) -> Listed {
        Listed::Point(point.key, point.address)
    }

    /// That of a control of settings.
    fn of_control(control: &Control) -> Listed {
        Listed::Control {
            outstation: control.outstation,
            index: control.index,
            address: control.address,
        }
    }
}

impl List {
    /// Whether settings have the points and the controls of the list, in its order, and no others.
    pub fn is_of(&self, settings: &Settings) -> bool {
        self.has_points(settings.rows()) && self.has_controls(settings.controls())
    }

    /// Whether its points are these.
    fn has_points(&self, points: &[Row]) -> bool {
        let mut count: usize = 0;
        for row in &self.rows {
            if row.listed.is_point() {
                if !is_point(points.get(count), row.listed) {
                    return false;
                }
                count = count.saturating_add(1);
            }
        }
        count == points.len()
    }

    /// Whether its controls are these.
    fn has_controls(&self, controls: &[Control]) -> bool {
        let mut count: usize = 0;
        for row in &self.rows {
            if row.listed.is_control() {
                if !is_control(controls.get(count), row.listed) {
                    return false;
                }
                count = count.saturating_add(1);
            }
        }
        count == controls.len()
    }
}

/// Whether a point of settings, if there is one, is this one.
fn is_point(point: Option<&Row>, listed: Listed) -> bool {
    match point {
        Some(point) => Listed::of_point(point) == listed,
        None => false,
    }
}

/// Whether a control of settings, if there is one, is this one.
fn is_control(control: Option<&Control>, listed: Listed) -> bool {
    match control {
        Some(control) => Listed::of_control(control) == listed,
        None => false,
    }
}

impl ListRow {
    /// Writes the keys of the row's table of the settings, a line each.
    pub fn write_keys(&self, text: &mut String) -> Result<(), AllocError> {
        for pair in &self.keys {
            write_pair(pair, text)?;
            if let (Listed::Point(key, _), "outstation") = (self.listed, pair.key) {
                write_kind(key.kind, text)?;
            }
        }
        Ok(())
    }

    /// The information object of the point or the control that the row is of, if settings have it.
    pub fn object_in(&self, settings: &Settings) -> Option<ObjectKey> {
        let address = self.listed.address()?;
        let common_address = self.common_address_in(settings)?;
        let point = settings.row_at(common_address, address);
        let control = settings.control_at(common_address, address);
        let found = match (point, control) {
            (Some((_, point)), _) => Listed::of_point(point),
            (None, Some((_, control))) => Listed::of_control(control),
            (None, None) => return None,
        };
        if found != self.listed {
            return None;
        }
        Some(ObjectKey {
            common_address,
            address,
        })
    }

    /// The common address of the row's outstation in settings, unless another one stands in the row.
    pub fn common_address_in(&self, settings: &Settings) -> Option<u16> {
        let position = usize::from(self.listed.outstation());
        let common_address = settings.outstations().get(position)?.common_address;
        match self.common_address {
            Some(other) if other != common_address => None,
            _ => Some(common_address),
        }
    }
}

/// Writes a key and what stands there.
fn write_pair(pair: &KeyValue, text: &mut String) -> Result<(), AllocError> {
    let KeyValue { key, value } = *pair;
    writeln!(text, "{key} = {value}")
}

/// Writes the key of a point's kind.
fn write_kind(kind: Kind, text: &mut String) -> Result<(), AllocError> {
    let word = kind_word(kind);
    writeln!(text, "kind = \"{word}\"")
}
