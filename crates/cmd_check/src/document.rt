//! All that is wrong with a settings file, in the order in which it is judged.

use crate::entries::{
    ControlReader, Judged, OutstationReader, Reader, RowReader, StationReader, judge,
};
use crate::faults::{EntryPlace, FaultList};
use crate::seen::Seen;
use cmd_profile::{
    Control, Fault, KeyName, KeyPlace, OUTSTATIONS, ObjectKey, Outstation, ROWS, Row, Section,
    SettingsFault, Station,
};
use std::alloc::{AllocError, Global};
use toml::{Table, Value};

/// The key of outstations that says their common address.
const COMMON: &str = "common_address";

/// The sections of a file.
const SECTIONS: [Section; 4] = [
    Section::Station,
    Section::Outstation,
    Section::Point,
    Section::Control,
];

/// All that is wrong with a document.
#[derive(Drop)]
pub(crate) struct FoundFaults {
    /// What is wrong with its entries, in their order.
    pub(crate) of_entries: FaultList,
    /// What stood in front of an entry already.
    pub(crate) seen: Seen,
}

impl FoundFaults {
    /// How many faults there are.
    pub(crate) fn count(&self) -> usize {
        let doubles = self
            .seen
            .double_sources()
            .count()
            .saturating_add(self.seen.double_objects().count());
        self.of_entries.count().saturating_add(doubles)
    }
}

/// Finds all that is wrong with a document. Fails with `Memory` alone.
pub(crate) fn faults_in(alloc: Global, top: &Table) -> Result<FoundFaults, SettingsFault> {
    let mut of_entries = FaultList::new(alloc);
    let mut seen = Seen::new(alloc);
    add_unknown_sections(alloc, top, &mut of_entries)?;
    let station = judge_station(alloc, top, &mut of_entries)?;
    if let Some(outstations) = judge_outstations(alloc, top, &station, &mut of_entries)? {
        judge_rows(alloc, top, &outstations, &mut seen, &mut of_entries)?;
        judge_controls(alloc, top, &outstations, &mut seen, &mut of_entries)?;
    }
    Ok(FoundFaults { of_entries, seen })
}

/// A key at the top.
fn at_top(name: &'static str) -> KeyPlace {
    EntryPlace {
        section: Section::Top,
        position: 0,
    }
    .key(name)
}

/// Adds the keys at the top that are no sections.
fn add_unknown_sections(
    alloc: Global,
    top: &Table,
    faults: &mut FaultList,
) -> Result<(), AllocError> {
    for key in top.keys() {
        if !SECTIONS
            .iter()
            .any(|section| section.name() == key.as_str())
        {
            let place = KeyPlace {
                section: Section::Top,
                position: 0,
                key: KeyName::Unknown(String::from_str(alloc, key.as_str())?),
            };
            faults.add_at(Fault::UnknownKey, place)?;
        }
    }
    Ok(())
}

/// Judges the station.
fn judge_station(
    alloc: Global,
    top: &Table,
    faults: &mut FaultList,
) -> Result<Judged<Station>, SettingsFault> {
    match top.get("station") {
        Some(Value::Table(table)) => return judge(alloc, &StationReader, table, 0, faults),
        Some(_) => faults.add_at(Fault::WrongType, at_top("station"))?,
        None => faults.add_at(Fault::Missing, at_top("station"))?,
    }
    any_entry(alloc, &StationReader)
}

/// Some entry of a section, with nothing in it as it is written in a file.
fn any_entry<R: Reader>(alloc: Global, reader: &R) -> Result<Judged<R::Entry>, SettingsFault> {
    let mut unheard = FaultList::new(alloc);
    judge(alloc, reader, &Table::new(alloc), 0, &mut unheard)
}

/// The entries of a section that is a list, as many of them as there may be.
fn values_in<'a>(
    top: &'a Table,
    section: Section,
    room: usize,
    faults: &mut FaultList,
) -> Result<&'a [Value], AllocError> {
    let values = match top.get(section.name()) {
        None => return Ok(&[]),
        Some(Value::Array(values)) => values.as_slice(),
        Some(_) => {
            faults.add_at(Fault::WrongType, at_top(section.name()))?;
            return Ok(&[]);
        }
    };
    if values.iter().any(|value| !value.is_table()) {
        faults.add_at(Fault::WrongType, at_top(section.name()))?;
    }
    if values.len() > room {
        let place = EntryPlace {
            section,
            position: 0,
        };
        faults.add_at(Fault::OutOfRange, place.key("count"))?;
    }
    Ok(values.get(..room).unwrap_or(values))
}

/// The outstations, and what is known of their common addresses.
#[derive(Drop)]
struct JudgedOutstations {
    outstations: Vec<Outstation>,
    /// The common address of each; 0 stands for that of the station where it is wrong, and none for a wrong one of its own.
    common_addresses: Vec<Option<u16>>,
}

impl JudgedOutstations {
    /// The information object at an address of an outstation, if its common address is known.
    fn object(&self, outstation: u8, address: u32) -> Option<ObjectKey> {
        let common_address = (*self.common_addresses.get(usize::from(outstation))?)?;
        Some(ObjectKey {
            common_address,
            address,
        })
    }
}

/// Judges the outstations of a station.
fn judge_outstations(
    alloc: Global,
    top: &Table,
    station: &Judged<Station>,
    faults: &mut FaultList,
) -> Result<Option<JudgedOutstations>, SettingsFault> {
    let Some(known) = station.entry() else {
        return Ok(None);
    };
    let reader = OutstationReader(known);
    let mut outstations = Vec::new(alloc);
    let mut common_addresses = Vec::new(alloc);
    let values = values_in(top, Section::Outstation, OUTSTATIONS, faults)?;
    for (position, value) in values.iter().enumerate() {
        let judged = match value.as_table() {
            Some(table) => judge(alloc, &reader, table, position, faults)?,
            None => any_entry(alloc, &reader)?,
        };
        common_addresses.push(common_address_of(&judged, value, station.is_mended(COMMON)))?;
        match judged.into_entry() {
            Some(outstation) => outstations.push(outstation)?,
            None => return Ok(None),
        }
    }
    Ok(Some(JudgedOutstations {
        outstations,
        common_addresses,
    }))
}

/// The common address of an outstation, as `JudgedOutstations` keeps it.
fn common_address_of(
    judged: &Judged<Outstation>,
    value: &Value,
    is_station_wrong: bool,
) -> Option<u16> {
    let outstation = judged.as_written(&[COMMON])?;
    if is_station_wrong && value.get(COMMON).is_none() {
        return Some(0);
    }
    Some(outstation.common_address)
}

/// Judges the points.
fn judge_rows(
    alloc: Global,
    top: &Table,
    known: &JudgedOutstations,
    seen: &mut Seen,
    faults: &mut FaultList,
) -> Result<(), SettingsFault> {
    let reader = RowReader(known.outstations.as_slice());
    let values = values_in(top, Section::Point, ROWS, faults)?;
    for (position, value) in values.iter().enumerate() {
        if let Some(table) = value.as_table() {
            let judged = judge(alloc, &reader, table, position, faults)?;
            note_row(&judged, position, known, seen)?;
        }
    }
    Ok(())
}

/// Notes the source and the information object of a point, as far as they are written.
fn note_row(
    judged: &Judged<Row>,
    position: usize,
    known: &JudgedOutstations,
    seen: &mut Seen,
) -> Result<(), AllocError> {
    let place = EntryPlace {
        section: Section::Point,
        position,
    };
    if let Some(row) = judged.as_written(&["outstation", "kind", "index"]) {
        seen.note_source(place, row.key)?;
    }
    if let Some(row) = judged.as_written(&["outstation", "address"]) {
        if let Some(object) = known.object(row.key.outstation, row.address) {
            seen.note_object(place, object)?;
        }
    }
    Ok(())
}

/// Judges the controls.
fn judge_controls(
    alloc: Global,
    top: &Table,
    known: &JudgedOutstations,
    seen: &mut Seen,
    faults: &mut FaultList,
) -> Result<(), SettingsFault> {
    let reader = ControlReader(known.outstations.as_slice());
    let room = ROWS.saturating_sub(points_in(top));
    let values = values_in(top, Section::Control, room, faults)?;
    for (position, value) in values.iter().enumerate() {
        if let Some(table) = value.as_table() {
            let judged = judge(alloc, &reader, table, position, faults)?;
            note_control(&judged, position, known, seen)?;
        }
    }
    Ok(())
}

/// How many points a document has.
fn points_in(top: &Table) -> usize {
    match top.get("point") {
        Some(Value::Array(values)) => values.len(),
        _ => 0,
    }
}

/// Notes the information object of a control, as far as it is written.
fn note_control(
    judged: &Judged<Control>,
    position: usize,
    known: &JudgedOutstations,
    seen: &mut Seen,
) -> Result<(), AllocError> {
    let place = EntryPlace {
        section: Section::Control,
        position,
    };
    if let Some(control) = judged.as_written(&["outstation", "address"]) {
        if let Some(object) = known.object(control.outstation, control.address) {
            seen.note_object(place, object)?;
        }
    }
    Ok(())
}
