//! The sections of the settings, entry by entry.
ghost use Rattle.std.specs.Prelude.{◌≡◌, ◌≤◌, ◌++◌, IfOk, length, map, min, codes, option_map, vec_len};
ghost use Rattle.toml.specs.Data.{get_member};
ghost use Rattle.toml.specs.View.{table_view, items_view};
ghost use Rattle.gw_entries.specs.Answers.{Tells};
ghost use Rattle.gw_map.specs.Answers.{seen};
ghost use Rattle.gw_entries.specs.Complaints.{complaint, placed, table_wrongs, no_mismatches, point_mismatches, control_mismatches};
ghost use Rattle.gw_map.specs.Sections.{tables_of, listed, entries, each_from, list_complaints, station_complaints, station_in};
ghost use Rattle.gw_entries.specs.Faults.{refusal_of, refused, section_name};
ghost use Rattle.gw_entries.specs.Fields.{row_fields, control_fields};
ghost use Rattle.gw_entries.specs.Tables.{outstation_keys, point_keys, control_keys};
ghost use Rattle.gw_entries.specs.Values.{outstation_of, row_of, control_of};
ghost use Rattle.gw_entries.specs.declared.fault.Section.TheVariants as of;

use gw_entries::{
    Control, Fault, KeyFault, Outstation, Row, Section, SettingsFault, Station, read_control,
    read_outstation, read_row, read_station, value_at,
};
use std::alloc::{AllocError, Global};
use toml::{Table, Value};

/// How many outstations there may be.
pub const OUTSTATIONS: usize = gw_model::OUTSTATIONS as usize;

/// How many points there may be, and points and controls together.
pub const ROWS: usize = 20_000;

/// What is wrong at the top with the key of a section.
fn at_top(fault: Fault, section: Section) -> SettingsFault
    ensures { refusal_of result ≡ refused (complaint of.Top 0 (fault, section_name section)) }
{
    let key = section.name();
    KeyFault { fault, key }.at(Section::Top, 0)
}

/// Values as tables, where they are all tables.
fn as_tables(alloc: Global, values: &[Value]) -> Result<Option<Vec<&Table>>, AllocError>
    ensures { IfOk result (λ found.
        option_map (λ tables. seen tables.items) found ≡ tables_of (items_view values.now)) }
{
    let mut tables = Vec::with_capacity(alloc, values.len())?;
    for value in values {
        match value.as_table() {
            Some(table) => tables.push(table)?,
            None => return Ok(None),
        }
    }
    Ok(Some(tables))
}

/// The tables of a section, which has room for so many.
fn tables_in<'a>(
    alloc: Global,
    top: &'a Table,
    section: Section,
    room: usize,
) -> Result<Vec<&'a Table>, SettingsFault>
    ensures read { Tells (λ tables. seen tables.items) result
        (list_complaints section (section_name section) room
        (listed (get_member (section_name section) (table_view top.now))))
        (entries (section_name section) (table_view top.now)) }
    ensures few { IfOk result (λ tables. vec_len tables ≤ room) }
{
    let Some(value) = value_at(top, section.name()) else {
        return Ok(Vec::new(alloc));
    };
    let Some(values) = value.as_array() else {
        return Err(at_top(Fault::WrongType, section));
    };
    let Some(tables) = as_tables(alloc, values)? else {
        return Err(at_top(Fault::WrongType, section));
    };
    if tables.len() > room {
        let fault = KeyFault {
            fault: Fault::OutOfRange,
            key: "count",
        };
        return Err(fault.at(section, 0));
    }
    Ok(tables)
}

/// The station.
pub(crate) fn station_in(alloc: Global, top: &Table) -> Result<Station, SettingsFault>
    ensures { Tells (λ station. station) result
        (station_complaints (get_member (codes "station") (table_view top.now)))
        (station_in (table_view top.now)) }
{
    let Some(value) = value_at(top, "station") else {
        return Err(at_top(Fault::Missing, Section::Station));
    };
    let Some(table) = value.as_table() else {
        return Err(at_top(Fault::WrongType, Section::Station));
    };
    read_station(alloc, table)
}

/// What settings have a list of.
pub(crate) trait Listed: Sized + Drop {
    ghost use Rattle.std.specs.Prelude.{ℕ, List, length, min};
    ghost use Rattle.toml.specs.Data.{Members};
    ghost use Rattle.toml.specs.View.{table_view};
    ghost use Rattle.gw_entries.specs.Answers.{Tells};
    ghost use Rattle.gw_entries.specs.Complaints.{Complaint};
    ghost use Rattle.gw_entries.specs.Setup.{OutstationSetup};

    /// As a plain value.
    ghost Fields: { Type 0 };

    ghost fields: { Self → Fields };

    /// What is wrong with the table at a position, where there are so many outstations; and what it means, where the
    /// station has this common address, with these outstations.
    ghost complaints: { ℕ → ℕ → Members → List Complaint };

    ghost meaning: { ℕ → List OutstationSetup → Members → Fields };

    /// The entry of the table at a position, where the station and these outstations stand before it.
    fn entry(
        alloc: Global,
        table: &Table,
        position: usize,
        station: &Station,
        outstations: &[Outstation],
    ) -> Result<Self, SettingsFault>
        ensures { Tells fields result (complaints (min (length outstations.now) 255) position (table_view table.now))
            (meaning station.now.common_address outstations.now (table_view table.now)) };
}

impl Listed for Outstation {
    ghost use Rattle.gw_entries.specs.Setup.{OutstationSetup};

    ghost Fields = { OutstationSetup };

    ghost fields = { λ outstation. outstation };

    ghost complaints = { λ _ position ms.
        placed of.Outstation position (table_wrongs 0 outstation_keys no_mismatches ms) };

    ghost meaning = { λ common _ ms. outstation_of common ms };

    fn entry(
        alloc: Global,
        table: &Table,
        position: usize,
        station: &Station,
        _outstations: &[Outstation],
    ) -> Result<Outstation, SettingsFault> {
        read_outstation(alloc, table, position, station)
    }
}

impl Listed for Row {
    ghost use Rattle.gw_entries.specs.Setup.{RowFields};

    ghost Fields = { RowFields };

    ghost fields = { row_fields };

    ghost complaints = { λ outstations position ms.
        placed of.Point position (table_wrongs outstations point_keys point_mismatches ms) };

    ghost meaning = { λ _ outstations ms. row_of outstations ms };

    fn entry(
        alloc: Global,
        table: &Table,
        position: usize,
        _station: &Station,
        outstations: &[Outstation],
    ) -> Result<Row, SettingsFault> {
        read_row(alloc, table, position, outstations)
    }
}

impl Listed for Control {
    ghost use Rattle.gw_entries.specs.Setup.{ControlFields};

    ghost Fields = { ControlFields };

    ghost fields = { control_fields };

    ghost complaints = { λ outstations position ms.
        placed of.Control position (table_wrongs outstations control_keys control_mismatches ms) };

    ghost meaning = { λ _ outstations ms. control_of outstations ms };

    fn entry(
        alloc: Global,
        table: &Table,
        position: usize,
        _station: &Station,
        outstations: &[Outstation],
    ) -> Result<Control, SettingsFault> {
        read_control(alloc, table, position, outstations)
    }
}

/// The entries of some tables, where the station and these outstations stand before them.
fn entries_of<T: Listed>(
    alloc: Global,
    tables: &[&Table],
    station: &Station,
    outstations: &[Outstation],
) -> Result<Vec<T>, SettingsFault>
    ensures read { Tells (λ found. map T.fields found.items) result
        (each_from 0 (T.complaints (min (length outstations.now) 255)) (seen tables.now))
        (map (T.meaning station.now.common_address outstations.now) (seen tables.now)) }
    ensures len { IfOk result (λ found. vec_len found ≡ length tables.now) }
{
    let mut entries = Vec::with_capacity(alloc, tables.len())?;
    for (position, table) in tables.iter().enumerate() {
        entries.push(T::entry(alloc, table, position, station, outstations)?)?;
    }
    Ok(entries)
}

/// The entries of a section, which has room for so many, where the station and these outstations stand before it.
pub(crate) fn entries_in<T: Listed>(
    alloc: Global,
    top: &Table,
    section: Section,
    room: usize,
    station: &Station,
    outstations: &[Outstation],
) -> Result<Vec<T>, SettingsFault>
    ensures read { Tells (λ found. map T.fields found.items) result
        (list_complaints section (section_name section) room
        (listed (get_member (section_name section) (table_view top.now)))
        ++ each_from 0 (T.complaints (min (length outstations.now) 255))
        (entries (section_name section) (table_view top.now)))
        (map (T.meaning station.now.common_address outstations.now)
        (entries (section_name section) (table_view top.now))) }
    ensures few { IfOk result (λ found. vec_len found ≤ room) }
{
    let tables = tables_in(alloc, top, section, room)?;
    entries_of(alloc, &tables, station, outstations)
}
