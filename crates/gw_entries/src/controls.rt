//! Controls of the settings.
ghost use Rattle.std.specs.Prelude.{◌≡◌, length, min, option_map};
ghost use Rattle.toml.specs.View.{table_view};
ghost use Rattle.gw_entries.specs.Answers.{Tells, first};
ghost use Rattle.gw_entries.specs.Complaints.{table_wrongs, placed, mismatches_of, control_mismatches};
ghost use Rattle.gw_entries.specs.Fields.{control_fields, operation_of, operation_with};
ghost use Rattle.gw_entries.specs.Tables.{control_keys};
ghost use Rattle.gw_entries.specs.declared.fault.Section.TheVariants as of;
ghost use Rattle.gw_entries.specs.Values.{control_of};

use crate::control::{Control, ControlShow, Mode, Operates, Pulses, Rest};
use crate::entry::Entry;
use crate::fault::{Section, SettingsFault};
use crate::outstation::{Outstation, common_at, count_of};
use crate::row::Scale;
use std::alloc::Global;
use toml::Table;

/// What the words of `show` stand for, in their order.
const SHOWS: [ControlShow; 3] = [
    ControlShow::Single,
    ControlShow::Double,
    ControlShow::Setpoint,
];

/// What the words of `mode` stand for, in their order.
const MODES: [Mode; 2] = [Mode::Direct, Mode::Sbo];

/// What the words of `rest` stand for, in their order.
const RESTS: [Rest; 2] = [Rest::Latch, Rest::Short];

/// The first key that doesn't fit what a control is shown as.
fn mismatch(entry: Entry, show: ControlShow) -> Option<&'static str>
    ensures { option_map (λ key. key.now) result ≡ first (mismatches_of show (table_view entry.entry.table.now)) }
{
    match show {
        ControlShow::Single | ControlShow::Double => entry.first_of(&["num", "den"]),
        ControlShow::Setpoint => entry.first_of(&["rest", "short_ms", "long_ms"]),
    }
}

/// How a control is operated that is shown so.
fn operates(show: ControlShow, pulses: Pulses, scale: Scale) -> Operates
    ensures { operation_of result ≡ operation_with show pulses scale }
{
    match show {
        ControlShow::Single => Operates::Single(pulses),
        ControlShow::Double => Operates::Double(pulses),
        ControlShow::Setpoint => Operates::Setpoint(scale),
    }
}

/// The control of a table, where these outstations stand before it.
pub fn read_control(
    alloc: Global,
    table: &Table,
    position: usize,
    outstations: &[Outstation],
) -> Result<Control, SettingsFault>
    ensures { Tells control_fields result
        (placed of.Control position
        (table_wrongs (min (length outstations.now) 255) control_keys control_mismatches (table_view table.now)))
        (control_of outstations.now (table_view table.now)) }
{
    let entry = Entry {
        table,
        section: Section::Control,
    };
    entry.check(alloc, position, count_of(outstations))?;
    let show = entry.word("show", &SHOWS, ControlShow::Single);
    if let Some(key) = mismatch(entry, show) {
        return Err(entry.mismatch_fault(key, position));
    }
    let pulses = Pulses {
        rest: entry.word("rest", &RESTS, Rest::Latch),
        short_ms: entry.number_u32("short_ms"),
        long_ms: entry.number_u32("long_ms"),
    };
    let scale = Scale {
        num: entry.number_u16("num"),
        den: entry.number_u16("den"),
    };
    let outstation = entry.number_u16("outstation") as u8;
    Ok(Control {
        outstation,
        index: entry.number_u16("index"),
        common_address: common_at(outstations, outstation),
        address: entry.number_u32("address"),
        select: entry.flag("select"),
        mode: entry.word("mode", &MODES, Mode::Direct),
        operates: operates(show, pulses, scale),
    })
}
