//! The lines that list the points and the controls of settings.

use crate::words::{control_word, kind_word, mode_word, show_word};
use cmd_text::{Behind, Names};
use gw_map::{Control, Row, Settings};
use std::io::{self, Write};

/// Writes a line for each point and each control, in the order of the file, with its name behind it, and how many there
/// are.
pub fn write_listing<W: Write>(
    settings: &Settings,
    names: &Names,
    writer: &mut W,
) -> io::Result<()> {
    for row in settings.rows() {
        write_row(
            row,
            names.of_object(row.common_address, row.address),
            writer,
        )?;
    }
    for control in settings.controls() {
        let name = names.of_object(control.common_address, control.address);
        write_control(control, name, writer)?;
    }
    let points = settings.rows().len();
    let controls = settings.controls().len();
    writeln!(writer, "rows {points} {controls}")
}

fn write_row<W: Write>(row: &Row, name: Option<&str>, writer: &mut W) -> io::Result<()> {
    let common_address = row.common_address;
    let address = row.address;
    let show = show_word(row.show);
    let outstation = row.key.outstation;
    let kind = kind_word(row.key.kind);
    let index = row.key.index;
    let name = Behind(name);
    writeln!(
        writer,
        "point {common_address} {address} {show} {outstation} {kind} {index}{name}"
    )
}

fn write_control<W: Write>(
    control: &Control,
    name: Option<&str>,
    writer: &mut W,
) -> io::Result<()> {
    let common_address = control.common_address;
    let address = control.address;
    let show = control_word(control.operates);
    let outstation = control.outstation;
    let index = control.index;
    let mode = mode_word(control.mode);
    let name = Behind(name);
    writeln!(
        writer,
        "control {common_address} {address} {show} {outstation} {index} {mode}{name}"
    )
}
