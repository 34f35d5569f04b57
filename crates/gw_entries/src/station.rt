//! The station that clients see.
ghost use Rattle.toml.specs.View.{table_view};
ghost use Rattle.gw_entries.specs.Answers.{Tells};
ghost use Rattle.gw_entries.specs.Complaints.{table_wrongs, no_mismatches, placed};
ghost use Rattle.gw_entries.specs.Tables.{station_keys};
ghost use Rattle.gw_entries.specs.Values.{station_of};
ghost use Rattle.gw_entries.specs.declared.fault.Section.TheVariants.{Station as OfStation};

use crate::entry::Entry;
use crate::fault::{Section, SettingsFault};
use gw_model::ClockRule;
use std::alloc::Global;
use std::marker::Model;
use toml::Table;

/// The controlled station (IEC 60870-5-104), and what it keeps for its clients.
#[derive(Drop)]
pub struct Station {
    /// The common address of its ASDUs, from 1 to 65534.
    pub common_address: u16,
    /// The link address of the master towards the outstations, from 0 to 65519.
    pub master_address: u16,
    /// How many minutes its clocks are ahead of UTC, from -840 to 840.
    pub offset_minutes: i16,
    /// The rule for summer time, if there is one.
    pub rule: Option<ClockRule>,
    /// How many I formats may be unacknowledged, from 1 to 32767.
    pub k: u16,
    /// After how many received I formats they are acknowledged, from 1 to k.
    pub w: u16,
    /// How long an acknowledgement is awaited, from 1 to 255000 milliseconds.
    pub t1_ms: u32,
    /// After how long received I formats are acknowledged, from 1 millisecond on, below t1.
    pub t2_ms: u32,
    /// After how long of silence the connection is tested, from 1 to 255000 milliseconds.
    pub t3_ms: u32,
    /// How many news wait for a client at most, from 1 to 65536.
    pub queue: u32,
    /// How long a selection stands, from 1 to 600000 milliseconds.
    pub select_ms: u32,
    /// How many steps the recorder keeps, from 1 to 65536.
    pub recorder: u32,
    /// Where it listens for clients.
    pub listen: String,
    /// The text of the rule for summer time, with the names of its times; empty if there is no rule.
    pub rule_text: String,
}

impl Model for Station {
    ghost use Rattle.gw_entries.specs.Setup.{StationSetup};

    ghost Value = { StationSetup };

    ghost use Rattle.gw_entries.specs.Seen.{station_seen};
    ghost use Rattle.gw_entries.specs.Ranges.{IsStation};

    ghost view = { station_seen };

    ghost invariant = { λ s. IsStation (station_seen s) };
}

/// The station of a table.
pub fn read_station(alloc: Global, table: &Table) -> Result<Station, SettingsFault>
    ensures { Tells (λ s. s) result
        (placed OfStation 0 (table_wrongs 0 station_keys no_mismatches (table_view table.now)))
        (station_of (table_view table.now)) }
{
    let entry = Entry {
        table,
        section: Section::Station,
    };
    entry.check(alloc, 0, 0)?;
    Ok(Station {
        common_address: entry.number_u16("common_address"),
        master_address: entry.number_u16("master_address"),
        offset_minutes: entry.integer("offset_minutes") as i16,
        rule: entry.rule("rule"),
        k: entry.number_u16("k"),
        w: entry.number_u16("w"),
        t1_ms: entry.number_u32("t1_ms"),
        t2_ms: entry.number_u32("t2_ms"),
        t3_ms: entry.number_u32("t3_ms"),
        queue: entry.number_u32("queue"),
        select_ms: entry.number_u32("select_ms"),
        recorder: entry.number_u32("recorder"),
        listen: String::from_str(alloc, entry.text("listen"))?,
        rule_text: String::from_str(alloc, entry.text("rule"))?,
    })
}
