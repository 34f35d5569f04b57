//! The signals of the station: a line for each point and each control, which is ticked when it was tried.

use crate::form::{Cell, Column, Form};
use crate::types::{command_type, point_types};
use crate::words::mode_word;
use cmd_text::Names;
use gw_map::{Control, Operates, Row, Show};
use gw_model::{Kind, PointKey};
use std::io;

const OF_POINTS: [Column; 10] = [
    Column::Words("tried", 5),
    Column::Numbers("common", 6),
    Column::Numbers("address", 8),
    Column::Words("without time", 12),
    Column::Words("with time", 12),
    Column::Numbers("outstation", 10),
    Column::Words("DNP3 object", 21),
    Column::Numbers("index", 5),
    Column::Words("scaling", 0),
    Column::Words("name", 0),
];

const OF_CONTROLS: [Column; 11] = [
    Column::Words("tried", 5),
    Column::Numbers("common", 6),
    Column::Numbers("address", 8),
    Column::Words("type", 12),
    Column::Numbers("outstation", 10),
    Column::Words("DNP3 object", 21),
    Column::Numbers("index", 5),
    Column::Words("select", 6),
    Column::Words("operate", 7),
    Column::Words("effect", 0),
    Column::Words("name", 0),
];

/// Writes the points, in the order of the file.
pub(crate) fn write_points<F: Form>(rows: &[Row], names: &Names, form: &mut F) -> io::Result<()> {
    form.wide_chapter("Signals in monitor direction")?;
    write_count(rows.len(), form)?;
    form.table(&OF_POINTS)?;
    for row in rows {
        let name = names.of_object(row.common_address, row.address);
        write_point(row, name, form)?;
    }
    Ok(())
}

/// Writes how many signals there are, and the place for how many were tried.
fn write_count<F: Form>(count: usize, form: &mut F) -> io::Result<()> {
    form.note(format_args!("There are {count}, of which tried: ________"))
}

fn write_point<F: Form>(row: &Row, name: Option<&str>, form: &mut F) -> io::Result<()> {
    let PointKey {
        outstation,
        kind,
        index,
    } = row.key;
    let types = point_types(row.show);
    form.row(
        Cell::Blank,
        &[
            Cell::Number(u64::from(row.common_address)),
            Cell::Number(u64::from(row.address)),
            Cell::Word(types.untimed),
            Cell::Word(types.timed),
            Cell::Number(u64::from(outstation)),
            Cell::Word(object_words(kind)),
            Cell::Number(u64::from(index)),
            scaling_of(row),
            Cell::Name(name),
        ],
    )
}

/// What a point's value is multiplied by.
fn scaling_of(row: &Row) -> Cell<'static> {
    match row.show {
        Show::Scaled => Cell::Factor(row.scale),
        Show::Single | Show::Double | Show::Word | Show::Total => Cell::Word("none"),
    }
}

/// What a kind of point is called in the object library of DNP3.
fn object_words(kind: Kind) -> &'static str {
    match kind {
        Kind::Binary => "binary input",
        Kind::Output => "binary output status",
        Kind::Double => "double-bit input",
        Kind::Counter => "counter",
        Kind::Analog => "analog input",
    }
}

/// Writes the controls, in the order of the file.
pub(crate) fn write_controls<F: Form>(
    controls: &[Control],
    names: &Names,
    form: &mut F,
) -> io::Result<()> {
    form.wide_chapter("Signals in control direction")?;
    write_count(controls.len(), form)?;
    form.table(&OF_CONTROLS)?;
    for control in controls {
        let name = names.of_object(control.common_address, control.address);
        write_control(control, name, form)?;
    }
    Ok(())
}

fn write_control<F: Form>(control: &Control, name: Option<&str>, form: &mut F) -> io::Result<()> {
    let select = if control.select { "yes" } else { "no" };
    form.row(
        Cell::Blank,
        &[
            Cell::Number(u64::from(control.common_address)),
            Cell::Number(u64::from(control.address)),
            Cell::Word(command_type(control.operates)),
            Cell::Number(u64::from(control.outstation)),
            Cell::Word(output_words(control.operates)),
            Cell::Number(u64::from(control.index)),
            Cell::Word(select),
            Cell::Word(mode_word(control.mode)),
            Cell::Effect(control.operates),
            Cell::Name(name),
        ],
    )
}

/// What an output is called in the object library of DNP3.
fn output_words(operates: Operates) -> &'static str {
    match operates {
        Operates::Single(_) | Operates::Double(_) => "control relay output",
        Operates::Setpoint(_) => "analog output",
    }
}
