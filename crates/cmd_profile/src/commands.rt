//! Commands in the interoperability list: which types of them the controls have, and how they are given.

use crate::form::{Form, write_marks};
use gw_map::{Control, Operates};
use std::io;

const UNUSED_COMMANDS: &str = "\
[ ] 50 C_SE_NC_1 set-point command, short floating point
[ ] 51 C_BO_NA_1 bitstring of 32 bits
[ ] 58 to 64: these seven with CP56Time2a";

/// Marks the types of process information in control direction, of which those are used that a control has.
pub(crate) fn write_command_types<F: Form>(controls: &[Control], form: &mut F) -> io::Result<()> {
    form.chapter("Process information in control direction")?;
    form.mark(
        controls.iter().any(is_single),
        "45 C_SC_NA_1 single command",
    )?;
    form.mark(
        controls.iter().any(is_double),
        "46 C_DC_NA_1 double command",
    )?;
    form.mark(false, "47 C_RC_NA_1 regulating step command")?;
    form.mark(false, "48 C_SE_NA_1 set-point command, normalized")?;
    form.mark(
        controls.iter().any(is_setpoint),
        "49 C_SE_NB_1 set-point command, scaled",
    )?;
    write_marks(UNUSED_COMMANDS, form)
}

/// Marks how commands are given: that is used which a control wants.
pub(crate) fn write_command_transmission<F: Form>(
    controls: &[Control],
    select_ms: u32,
    form: &mut F,
) -> io::Result<()> {
    write_ways(controls, form)?;
    write_selections(controls, select_ms, form)?;
    write_ends(controls, form)
}

/// Marks whether controls are operated directly.
fn write_ways<F: Form>(controls: &[Control], form: &mut F) -> io::Result<()> {
    form.mark(
        has_control(controls, false, false),
        "command transmission: direct commands",
    )?;
    form.mark(
        has_control(controls, false, true),
        "command transmission: direct set-point commands",
    )
}

/// Marks whether controls want a select, which stands for so long.
fn write_selections<F: Form>(controls: &[Control], select_ms: u32, form: &mut F) -> io::Result<()> {
    form.mark(
        has_control(controls, true, false),
        format_args!(
            "command transmission: select and execute commands, {select_ms} ms at most between them"
        ),
    )?;
    form.mark(
        has_control(controls, true, true),
        format_args!(
            "command transmission: select and execute set-point commands, {select_ms} ms at most between them"
        ),
    )
}

/// Marks which qualifiers are taken, and how commands end.
fn write_ends<F: Form>(controls: &[Control], form: &mut F) -> io::Result<()> {
    form.mark(
        controls.iter().any(is_setpoint),
        "command transmission: termination of set-point commands (C_SE ACTTERM)",
    )?;
    form.mark(
        controls.iter().any(|control| !is_setpoint(control)),
        "command transmission: QU 0 to 3 (no additional definition, short pulse, long pulse, persistent output)",
    )?;
    form.mark(
        false,
        "command transmission: supervision of maximum delay in command direction",
    )
}

/// Whether there is a control that wants a select or doesn't, and that sets a value or operates a switch.
fn has_control(controls: &[Control], select: bool, setpoint: bool) -> bool {
    controls
        .iter()
        .any(|it| it.select == select && is_setpoint(it) == setpoint)
}

pub(crate) fn is_single(control: &Control) -> bool {
    matches!(control.operates, Operates::Single(_))
}

pub(crate) fn is_double(control: &Control) -> bool {
    matches!(control.operates, Operates::Double(_))
}

pub(crate) fn is_setpoint(control: &Control) -> bool {
    matches!(control.operates, Operates::Setpoint(_))
}
