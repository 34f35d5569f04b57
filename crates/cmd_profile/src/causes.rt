//! The matrix of types and causes of transmission (IEC 60870-5-104, 9.5): which causes the station takes and sends.

use crate::commands::{is_double, is_setpoint, is_single};
use crate::form::{Cell, Column, Form};
use crate::types::{DOUBLE_COMMAND, SETPOINT_COMMAND, SINGLE_COMMAND, is_shown, point_types};
use gw_map::{Control, Row, Show};
use std::io;

/// The type, and each cause that is used at all.
const CAUSES: [Column; 14] = [
    Column::Words("type", 14),
    Column::Numbers("3", 2),
    Column::Numbers("5", 2),
    Column::Numbers("6", 2),
    Column::Numbers("7", 2),
    Column::Numbers("8", 2),
    Column::Numbers("9", 2),
    Column::Numbers("10", 2),
    Column::Numbers("20", 2),
    Column::Numbers("37", 2),
    Column::Numbers("44", 2),
    Column::Numbers("45", 2),
    Column::Numbers("46", 2),
    Column::Numbers("47", 2),
];

/// How a type is used with each of these causes: X where it is sent or taken, N where it is sent with P/N 1 alone.
type Uses = [Cell<'static>; 13];

const O: Cell<'static> = Cell::Unused;

const X: Cell<'static> = Cell::Word("X");

const N: Cell<'static> = Cell::Word("N");

const UNUSED: Uses = [O, O, O, O, O, O, O, O, O, O, O, O, O];

const OF_POINT: Uses = [X, X, O, O, O, O, O, X, O, O, O, O, O];

const OF_TOTAL: Uses = [X, O, O, O, O, O, O, O, X, O, O, O, O];

const WITH_TIME: Uses = [X, O, O, O, O, O, O, O, O, O, O, O, O];

const OF_COMMAND: Uses = [O, O, X, X, X, X, X, O, O, O, N, N, N];

const OF_NO_CONTROL: Uses = [O, O, O, O, O, O, O, O, O, O, N, N, N];

const OF_INTERROGATION: Uses = [O, O, X, X, X, N, X, O, O, O, N, N, N];

const OF_READ: Uses = [O, X, O, O, O, O, O, O, O, O, N, N, N];

const OF_ANY_OTHER: Uses = [O, O, O, O, O, O, O, O, O, N, O, O, O];

const SHOWS: [Show; 5] = [
    Show::Single,
    Show::Double,
    Show::Word,
    Show::Scaled,
    Show::Total,
];

/// Writes a row for each type that the station sends or takes.
pub(crate) fn write_causes<F: Form>(
    rows: &[Row],
    controls: &[Control],
    form: &mut F,
) -> io::Result<()> {
    form.chapter("Type identification and cause of transmission")?;
    form.note(
        "X: sent or taken. N: sent with P/N 1 alone. Confirmations and terminations (7, 9, 10) may have P/N 1 too.",
    )?;
    form.table(&CAUSES)?;
    write_untimed(rows, form)?;
    write_timed(rows, form)?;
    write_commands(controls, form)?;
    write_others(form)
}

/// Writes the types of points without time.
fn write_untimed<F: Form>(rows: &[Row], form: &mut F) -> io::Result<()> {
    for show in SHOWS {
        let uses = match show {
            Show::Total => OF_TOTAL,
            Show::Single | Show::Double | Show::Word | Show::Scaled => OF_POINT,
        };
        let name = Cell::Word(point_types(show).untimed);
        form.row(name, if is_shown(rows, show) { &uses } else { &UNUSED })?;
    }
    Ok(())
}

/// Writes the types of points with time.
fn write_timed<F: Form>(rows: &[Row], form: &mut F) -> io::Result<()> {
    for show in SHOWS {
        let name = Cell::Word(point_types(show).timed);
        form.row(
            name,
            if is_shown(rows, show) {
                &WITH_TIME
            } else {
                &UNUSED
            },
        )?;
    }
    Ok(())
}

/// Writes the types of commands.
fn write_commands<F: Form>(controls: &[Control], form: &mut F) -> io::Result<()> {
    let single = uses_of(controls.iter().any(is_single));
    let double = uses_of(controls.iter().any(is_double));
    let setpoint = uses_of(controls.iter().any(is_setpoint));
    form.row(Cell::Word(SINGLE_COMMAND), &single)?;
    form.row(Cell::Word(DOUBLE_COMMAND), &double)?;
    form.row(Cell::Word(SETPOINT_COMMAND), &setpoint)
}

/// How a type of commands is used that a control has, or none.
fn uses_of(is_used: bool) -> Uses {
    if is_used { OF_COMMAND } else { OF_NO_CONTROL }
}

/// Writes the types of interrogations and reads, and any other that a client sends.
fn write_others<F: Form>(form: &mut F) -> io::Result<()> {
    form.row(Cell::Word("100 C_IC_NA_1"), &OF_INTERROGATION)?;
    form.row(Cell::Word("101 C_CI_NA_1"), &OF_INTERROGATION)?;
    form.row(Cell::Word("102 C_RD_NA_1"), &OF_READ)?;
    form.row(Cell::Word("any other"), &OF_ANY_OTHER)
}
