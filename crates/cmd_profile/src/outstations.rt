//! The side of the outstations: what the gateway does as a master of DNP3, and how each outstation is reached and polled.

use crate::form::{Cell, Column, Form};
use cmd_text::Names;
use gw_map::{Control, Mode, Outstation, Settings};
use gw_model::Poll;
use std::io;

const COLUMNS: [Column; 10] = [
    Column::Numbers("outstation", 10),
    Column::Numbers("link address", 12),
    Column::Numbers("common address", 14),
    Column::Numbers("poll_ms", 8),
    Column::Numbers("integrity_ms", 12),
    Column::Numbers("response_ms", 11),
    Column::Words("unsolicited", 11),
    Column::Words("lan_time", 8),
    Column::Words("connection", 0),
    Column::Words("name", 0),
];

/// Writes what the master does, and a line for each outstation, in the order of the file.
pub(crate) fn write_outstations<F: Form>(
    settings: &Settings,
    names: &Names,
    form: &mut F,
) -> io::Result<()> {
    let outstations = settings.outstations();
    write_master(settings, form)?;
    form.chapter("Outstations")?;
    form.note("integrity_ms 0: an integrity poll at each connection, and none by a period")?;
    form.table(&COLUMNS)?;
    for (position, outstation) in (0u8..).zip(outstations) {
        write_outstation(position, outstation, names.of_outstation(position), form)?;
    }
    Ok(())
}

/// Writes what the gateway does as a master.
fn write_master<F: Form>(settings: &Settings, form: &mut F) -> io::Result<()> {
    let (outstations, controls) = (settings.outstations(), settings.controls());
    let address = settings.station().master_address;
    form.wide_chapter("DNP3 (IEEE Std 1815): the gateway is the master")?;
    form.mark(true, format_args!("link address of the master: {address}"))?;
    form.mark(true, "event polls, every poll_ms: classes 1, 2 and 3")?;
    form.mark(
        true,
        "integrity polls, at each connection, every integrity_ms, after a restart or an overflow: classes 1, 2, 3 and 0",
    )?;
    form.mark(true, "an answer is awaited for response_ms")?;
    form.mark(
        outstations.iter().any(|it| it.poll.unsolicited),
        "unsolicited responses: classes 1, 2 and 3 are enabled where unsolicited is yes",
    )?;
    form.mark(
        outstations.iter().any(|it| it.poll.lan_time),
        "the clock of an outstation is set by the procedure for a local network where lan_time is yes",
    )?;
    write_operations(controls, form)
}

/// Marks how outputs are operated.
fn write_operations<F: Form>(controls: &[Control], form: &mut F) -> io::Result<()> {
    form.mark(
        controls.iter().any(|it| matches!(it.mode, Mode::Direct)),
        "DIRECT OPERATE, for controls with direct",
    )?;
    form.mark(
        controls.iter().any(|it| matches!(it.mode, Mode::Sbo)),
        "SELECT and OPERATE, for controls with sbo",
    )
}

fn write_outstation<'a, F: Form>(
    position: u8,
    outstation: &'a Outstation,
    name: Option<&'a str>,
    form: &mut F,
) -> io::Result<()> {
    let Poll {
        poll_ms,
        integrity_ms,
        response_ms,
        unsolicited,
        lan_time,
    } = outstation.poll;
    form.row(
        Cell::Number(u64::from(position)),
        &[
            Cell::Number(u64::from(outstation.address)),
            Cell::Number(u64::from(outstation.common_address)),
            Cell::Number(poll_ms),
            Cell::Number(integrity_ms),
            Cell::Number(response_ms),
            Cell::Word(answer_word(unsolicited)),
            Cell::Word(answer_word(lan_time)),
            Cell::Word(outstation.connect.as_str()),
            Cell::Name(name),
        ],
    )
}

fn answer_word(answer: bool) -> &'static str {
    if answer { "yes" } else { "no" }
}
