//! Outstations, which the gateway polls.
ghost use Rattle.std.specs.Prelude.{◌≡◌, ◌<◌, length, min, is_some, codes, if◌then◌else◌};
ghost use Rattle.toml.specs.Data.{get_member};
ghost use Rattle.toml.specs.View.{table_view};
ghost use Rattle.gw_entries.specs.Answers.{Tells};
ghost use Rattle.gw_entries.specs.Complaints.{table_wrongs, no_mismatches, placed};
ghost use Rattle.gw_entries.specs.Ranges.{IsWithin};
ghost use Rattle.gw_entries.specs.Setup.{common_at};
ghost use Rattle.gw_entries.specs.Tables.{outstation_keys, rules_of};
ghost use Rattle.gw_entries.specs.Values.{outstation_of, value_at as value_in, as_number};
ghost use Rattle.gw_entries.specs.declared.fault.Section.TheVariants.{Outstation as OfOutstation};

use crate::entry::{Entry, value_at};
use crate::fault::{Section, SettingsFault};
use crate::station::Station;
use gw_model::Poll;
use std::alloc::Global;
use std::marker::Model;
use toml::Table;

/// An outstation (IEEE Std 1815).
#[derive(Drop)]
pub struct Outstation {
    /// Its link address, from 0 to 65519.
    pub address: u16,
    /// Where it is reached.
    pub connect: String,
    /// How it's polled: every 1 to 86400000 milliseconds; with an integrity poll every 1 to 86400000 milliseconds, or
    /// 0 for never; and an answer is awaited for 1 to 600000 milliseconds.
    pub poll: Poll,
    /// The common address of its points and controls, from 1 to 65534.
    pub common_address: u16,
}

impl Model for Outstation {
    ghost use Rattle.gw_entries.specs.Setup.{OutstationSetup};

    ghost Value = { OutstationSetup };

    ghost use Rattle.gw_entries.specs.Seen.{outstation_seen};
    ghost use Rattle.gw_entries.specs.Ranges.{IsOutstation};

    ghost view = { outstation_seen };

    ghost invariant = { λ s. IsOutstation (outstation_seen s) };
}

/// The outstation of a table. Its common address is the station's, where the table has none.
pub fn read_outstation(
    alloc: Global,
    table: &Table,
    position: usize,
    station: &Station,
) -> Result<Outstation, SettingsFault>
    ensures { Tells (λ s. s) result
        (placed OfOutstation position (table_wrongs 0 outstation_keys no_mismatches (table_view table.now)))
        (outstation_of station.now.common_address (table_view table.now)) }
{
    let entry = Entry {
        table,
        section: Section::Outstation,
    };
    entry.check(alloc, position, 0)?;
    Ok(Outstation {
        address: entry.number_u16("address"),
        poll: Poll {
            poll_ms: entry.number("poll_ms"),
            integrity_ms: entry.number("integrity_ms"),
            response_ms: entry.number("response_ms"),
            unsolicited: entry.flag("unsolicited"),
            lan_time: entry.flag("lan_time"),
        },
        common_address: own_or(entry, station.common_address),
        connect: String::from_str(alloc, entry.text("connect"))?,
    })
}

/// The common address that stands in a table, or else the station's.
fn own_or(entry: Entry, common_address: u16) -> u16
    ensures { let table = table_view entry.entry.table.now in result
        ≡ (if is_some (get_member (codes "common_address") table)
        then min (as_number (value_in (rules_of entry.entry.section) (codes "common_address") table)) 65535
        else common_address) }
{
    match value_at(entry.table, "common_address") {
        Some(_) => entry.number_u16("common_address"),
        None => common_address,
    }
}

/// How many of the outstations a point or a control may name: positions have eight bits.
pub(crate) fn count_of(outstations: &[Outstation]) -> u8
    ensures { result ≡ min (length outstations.now) 255 }
{
    outstations.len().min(255) as u8
}

/// The common address of the outstation at a position; 0 where there is none.
pub(crate) fn common_at(outstations: &[Outstation], position: u8) -> u16
    ensures common_address { result ≡ common_at position outstations.now }
    ensures within { position < length outstations.now → IsWithin 1 65534 result }
{
    match outstations.get(usize::from(position)) {
        Some(outstation) => outstation.common_address,
        None => 0,
    }
}
