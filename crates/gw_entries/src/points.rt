//! Points of the settings, each a row of the point map.
ghost use Rattle.std.specs.Prelude.{◌≡◌, length, min, option_map};
ghost use Rattle.toml.specs.View.{table_view};
ghost use Rattle.gw_entries.specs.Answers.{Tells, first};
ghost use Rattle.gw_entries.specs.Complaints.{table_wrongs, placed, mismatches_with, point_mismatches};
ghost use Rattle.gw_entries.specs.Fields.{row_fields};
ghost use Rattle.gw_entries.specs.Shown.{is_shown_by, usual_show};
ghost use Rattle.gw_entries.specs.Tables.{point_keys};
ghost use Rattle.gw_entries.specs.declared.fault.Section.TheVariants as of;
ghost use Rattle.gw_entries.specs.Values.{row_of};

use crate::entry::Entry;
use crate::fault::{Section, SettingsFault};
use crate::outstation::{Outstation, common_at, count_of};
use crate::row::{Row, Scale, Show};
use gw_model::{Kind, PointKey};
use std::alloc::Global;
use toml::Table;

/// What the words of `kind` stand for, in their order.
const KINDS: [Kind; 5] = [
    Kind::Binary,
    Kind::Output,
    Kind::Double,
    Kind::Counter,
    Kind::Analog,
];

/// What the words of `show` stand for, in their order.
const SHOWS: [Show; 5] = [
    Show::Single,
    Show::Double,
    Show::Scaled,
    Show::Word,
    Show::Total,
];

/// The type by which points of a kind are shown where nothing else is said.
fn usual_show(kind: Kind) -> Show
    ensures { result ≡ usual_show kind }
{
    match kind {
        Kind::Binary | Kind::Output => Show::Single,
        Kind::Double => Show::Double,
        Kind::Counter => Show::Total,
        Kind::Analog => Show::Scaled,
    }
}

/// Whether a type can show points of a kind.
fn fits(kind: Kind, show: Show) -> bool
    ensures { result ≡ is_shown_by kind show }
{
    match kind {
        Kind::Binary | Kind::Output => show == Show::Single,
        Kind::Double => show == Show::Double,
        Kind::Counter => show == Show::Total,
        Kind::Analog => show == Show::Scaled || show == Show::Word,
    }
}

/// The first key that doesn't fit a point of a kind with a type.
#[tactic(auto, unfolding(crate::specs::Answers::first))]
fn mismatch(entry: Entry, kind: Kind, show: Show) -> Option<&'static str>
    ensures { option_map (λ key. key.now) result
        ≡ first (mismatches_with kind show (table_view entry.entry.table.now)) }
{
    if !fits(kind, show) {
        Some("show")
    } else if show == Show::Scaled {
        None
    } else {
        entry.first_of(&["num", "den"])
    }
}

/// The row of a table, where these outstations stand before it.
pub fn read_row(
    alloc: Global,
    table: &Table,
    position: usize,
    outstations: &[Outstation],
) -> Result<Row, SettingsFault>
    ensures { Tells row_fields result
        (placed of.Point position (table_wrongs (min (length outstations.now) 255) point_keys point_mismatches
        (table_view table.now)))
        (row_of outstations.now (table_view table.now)) }
{
    let entry = Entry {
        table,
        section: Section::Point,
    };
    entry.check(alloc, position, count_of(outstations))?;
    let kind = entry.word("kind", &KINDS, Kind::Binary);
    let show = entry.word("show", &SHOWS, usual_show(kind));
    if let Some(key) = mismatch(entry, kind, show) {
        return Err(entry.mismatch_fault(key, position));
    }
    let outstation = entry.number_u16("outstation") as u8;
    Ok(Row {
        key: PointKey {
            outstation,
            kind,
            index: entry.number_u16("index"),
        },
        common_address: common_at(outstations, outstation),
        address: entry.number_u32("address"),
        show,
        scale: Scale {
            num: entry.number_u16("num"),
            den: entry.number_u16("den"),
        },
    })
}
