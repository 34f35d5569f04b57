//! What reads like a slip in the names of a list.

use cmd_lists::{List, ListRow, Told};
use cmd_text::Names;
use gw_map::Settings;
use std::alloc::{AllocError, Global};
use std::collections::HashMap;
use std::fmt;

/// Something that reads like a slip in the names of a list.
#[derive(Clone, Copy)]
pub enum NameDoubt {
    /// A row is of nothing in the settings.
    NotThere(usize),
    /// A row has the name of an earlier one.
    SameName {
        /// The row.
        row: usize,
        /// The earlier one.
        first: usize,
    },
    /// A point has no name.
    PointUnnamed(usize),
    /// A control has none.
    ControlUnnamed(usize),
}

impl fmt::Display for NameDoubt {
    fn fmt<W: fmt::Write>(&self, f: &mut fmt::Formatter<W>) -> fmt::Result {
        match *self {
            NameDoubt::NotThere(row) => write_stranger(f, row),
            NameDoubt::SameName { row, first } => write_double(f, row, first),
            NameDoubt::PointUnnamed(position) => write_unnamed(f, "point", position),
            NameDoubt::ControlUnnamed(position) => write_unnamed(f, "control", position),
        }
    }
}

/// Writes that a row is of nothing in the settings.
fn write_stranger<W: fmt::Write>(f: &mut fmt::Formatter<W>, row: usize) -> fmt::Result {
    write!(
        f,
        "row {row} of the names: the settings have no such point, control or outstation"
    )
}

/// Writes which earlier row has the name of a row.
fn write_double<W: fmt::Write>(f: &mut fmt::Formatter<W>, row: usize, first: usize) -> fmt::Result {
    write!(
        f,
        "row {row} of the names: its name is that of row {first} too"
    )
}

/// Writes that the point or the control at a position has no name.
fn write_unnamed<W: fmt::Write>(
    f: &mut fmt::Formatter<W>,
    what: &str,
    position: usize,
) -> fmt::Result {
    write!(f, "{what} {position}: it has no name")
}

/// What reads like a slip in the names that a list gives to the points and the controls of settings.
pub fn name_doubts(
    alloc: Global,
    list: &List,
    names: &Names,
    settings: &Settings,
) -> Result<Told<NameDoubt>, AllocError> {
    let mut doubts = Told::new(alloc);
    add_all(alloc, &mut doubts, list, names, settings)?;
    Ok(doubts)
}

/// Adds all of them.
fn add_all(
    alloc: Global,
    doubts: &mut Told<NameDoubt>,
    list: &List,
    names: &Names,
    settings: &Settings,
) -> Result<(), AllocError> {
    add_strangers(doubts, list, settings)?;
    add_doubles(alloc, doubts, list)?;
    add_unnamed_points(doubts, names, settings)?;
    add_unnamed_controls(doubts, names, settings)
}

/// Adds the rows that are of nothing in the settings.
fn add_strangers(
    doubts: &mut Told<NameDoubt>,
    list: &List,
    settings: &Settings,
) -> Result<(), AllocError> {
    for row in &list.rows {
        let is_there = match row.listed.address() {
            Some(_) => row.object_in(settings).is_some(),
            None => row.common_address_in(settings).is_some(),
        };
        if !is_there {
            doubts.add(NameDoubt::NotThere(row.row))?;
        }
    }
    Ok(())
}

/// Adds the rows whose names earlier ones have.
fn add_doubles(alloc: Global, doubts: &mut Told<NameDoubt>, list: &List) -> Result<(), AllocError> {
    let mut named = HashMap::new(alloc);
    for row in &list.rows {
        if !row.name.is_empty() {
            add_double(&mut named, doubts, row)?;
        }
    }
    Ok(())
}

/// Adds a row if an earlier one has its name; this row is the last one with it now.
fn add_double<'a>(
    named: &mut HashMap<&'a str, usize>,
    doubts: &mut Told<NameDoubt>,
    row: &'a ListRow,
) -> Result<(), AllocError> {
    match named.insert(row.name.as_str(), row.row)? {
        Some(first) => doubts.add(NameDoubt::SameName {
            row: row.row,
            first,
        }),
        None => Ok(()),
    }
}

/// Adds the points without a name.
fn add_unnamed_points(
    doubts: &mut Told<NameDoubt>,
    names: &Names,
    settings: &Settings,
) -> Result<(), AllocError> {
    for (position, point) in settings.rows().iter().enumerate() {
        if names
            .of_object(point.common_address, point.address)
            .is_none()
        {
            doubts.add(NameDoubt::PointUnnamed(position))?;
        }
    }
    Ok(())
}

/// Adds the controls without a name.
fn add_unnamed_controls(
    doubts: &mut Told<NameDoubt>,
    names: &Names,
    settings: &Settings,
) -> Result<(), AllocError> {
    for (position, control) in settings.controls().iter().enumerate() {
        if names
            .of_object(control.common_address, control.address)
            .is_none()
        {
            doubts.add(NameDoubt::ControlUnnamed(position))?;
        }
    }
    Ok(())
}
