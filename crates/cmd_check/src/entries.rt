//! All that is wrong with one table of a settings file. It is judged as it is read: the first fault is noted, something that
//! may stand at its key is put there, and the table is judged again, until nothing else is wrong.

use crate::faults::FaultList;
use cmd_profile::{
    Control, Fault, Key, KeyContent, KeyPlace, Outstation, Row, Section, SettingsFault, Station,
    keys_of,
};
use gw_entries::{read_control, read_outstation, read_row, read_station};
use std::alloc::{AllocError, Global};
use toml::{Table, Value};

/// What reads the entries of a section.
pub(crate) trait Reader {
    /// What an entry means.
    type Entry: Drop;

    /// The entry of the table at a position.
    fn read(
        &self,
        alloc: Global,
        table: &Table,
        position: usize,
    ) -> Result<Self::Entry, SettingsFault>;
}

/// Reads the station.
#[derive(Clone, Copy)]
pub(crate) struct StationReader;

impl Reader for StationReader {
    type Entry = Station;

    fn read(
        &self,
        alloc: Global,
        table: &Table,
        _position: usize,
    ) -> Result<Station, SettingsFault> {
        read_station(alloc, table)
    }
}

/// Reads outstations of a station.
#[derive(Clone, Copy)]
pub(crate) struct OutstationReader<'a>(pub(crate) &'a Station);

impl<'a> Reader for OutstationReader<'a> {
    type Entry = Outstation;

    fn read(
        &self,
        alloc: Global,
        table: &Table,
        position: usize,
    ) -> Result<Outstation, SettingsFault> {
        read_outstation(alloc, table, position, self.0)
    }
}

/// Reads points of outstations.
#[derive(Clone, Copy)]
pub(crate) struct RowReader<'a>(pub(crate) &'a [Outstation]);

impl<'a> Reader for RowReader<'a> {
    type Entry = Row;

    fn read(&self, alloc: Global, table: &Table, position: usize) -> Result<Row, SettingsFault> {
        read_row(alloc, table, position, self.0)
    }
}

/// Reads controls of outstations.
#[derive(Clone, Copy)]
pub(crate) struct ControlReader<'a>(pub(crate) &'a [Outstation]);

impl<'a> Reader for ControlReader<'a> {
    type Entry = Control;

    fn read(
        &self,
        alloc: Global,
        table: &Table,
        position: usize,
    ) -> Result<Control, SettingsFault> {
        read_control(alloc, table, position, self.0)
    }
}

/// An entry as it would be if nothing were wrong with it.
#[derive(Drop)]
pub(crate) struct Judged<T> {
    /// The entry; none if something else can't be put in the place of what is wrong.
    entry: Option<T>,
    /// The keys whose values aren't those of the file.
    mended: Vec<&'static str>,
}

impl<T: Drop> Judged<T> {
    /// The entry.
    pub(crate) fn entry(&self) -> Option<&T> {
        self.entry.as_ref()
    }

    /// The entry, for whoever keeps it.
    pub(crate) fn into_entry(self) -> Option<T> {
        self.entry
    }

    /// Whether the value at a key isn't that of the file.
    pub(crate) fn is_mended(&self, key: &str) -> bool {
        self.mended.iter().any(|mended| *mended == key)
    }

    /// The entry, if its values at these keys are those of the file.
    pub(crate) fn as_written(&self, keys: &[&str]) -> Option<&T> {
        if keys.iter().any(|key| self.is_mended(key)) {
            None
        } else {
            self.entry()
        }
    }
}

/// Judges the table at a position of a section, and notes all that is wrong with it.
pub(crate) fn judge<R: Reader>(
    alloc: Global,
    reader: &R,
    table: &Table,
    position: usize,
    faults: &mut FaultList,
) -> Result<Judged<R::Entry>, SettingsFault> {
    match reader.read(alloc, table, position) {
        Ok(entry) => Ok(Judged {
            entry: Some(entry),
            mended: Vec::new(alloc),
        }),
        Err(SettingsFault::Refused(..)) => {
            let mended = MendedTable {
                table: table.clone()?,
                keys: Vec::new(alloc),
            };
            mended.judge(alloc, reader, position, faults)
        }
        Err(other) => Err(other),
    }
}

/// A table in which something else stands in the place of what is wrong.
#[derive(Drop)]
struct MendedTable {
    table: Table,
    /// The keys at which something else stands.
    keys: Vec<&'static str>,
}

impl MendedTable {
    /// Judges the table until nothing else is wrong with it, and notes what is. Each round takes a key out of it, or puts
    /// something else at one.
    fn judge<R: Reader>(
        self,
        alloc: Global,
        reader: &R,
        position: usize,
        faults: &mut FaultList,
    ) -> Result<Judged<R::Entry>, SettingsFault> {
        let mut mended = self;
        let rounds = mended.table.len().saturating_add(MOST_KEYS);
        for _ in 0..rounds {
            match reader.read(alloc, &mended.table, position) {
                Ok(entry) => return Ok(Judged {
                    entry: Some(entry),
                    mended: mended.keys,
                }),
                Err(SettingsFault::Refused(fault, place)) => {
                    if !mended.mend(alloc, fault, place, faults)? {
                        break;
                    }
                }
                Err(other) => return Err(other),
            }
        }
        Ok(Judged {
            entry: None,
            mended: mended.keys,
        })
    }

    /// Notes a fault, and mends it; whether it could.
    fn mend(
        &mut self,
        alloc: Global,
        fault: Fault,
        place: KeyPlace,
        faults: &mut FaultList,
    ) -> Result<bool, AllocError> {
        match fault {
            Fault::UnknownKey => {
                drop(self.table.remove(place.key.as_str()));
                faults.add_at(fault, place)?;
                Ok(true)
            }
            Fault::KindMismatch => {
                drop(self.table.remove(place.key.as_str()));
                if self.is_mismatch(place.key.as_str()) {
                    faults.add_at(fault, place)?;
                }
                Ok(true)
            }
            _ => self.put_right(alloc, fault, place, faults),
        }
    }

    /// Notes that something is wrong at a key, and puts something else there, unless that was done before.
    fn put_right(
        &mut self,
        alloc: Global,
        fault: Fault,
        place: KeyPlace,
        faults: &mut FaultList,
    ) -> Result<bool, AllocError> {
        match key_named(place.section, place.key.as_str()) {
            Some(key) if !self.has(key.name) => {
                self.put(alloc, place.section, key)?;
                self.keys.push(key.name)?;
                faults.add_at(fault, place)?;
                Ok(true)
            }
            _ => Ok(false),
        }
    }

    /// Puts something that may stand at a key there; where it depends on another key, at that one too.
    fn put(&mut self, alloc: Global, section: Section, key: &Key) -> Result<(), AllocError> {
        self.put_value(alloc, key)?;
        match key.content {
            KeyContent::NumberTo(_, other) | KeyContent::NumberBelow(_, other) => {
                match key_named(section, other) {
                    Some(other) => self.put_value(alloc, other),
                    None => Ok(()),
                }
            }
            _ => Ok(()),
        }
    }

    fn put_value(&mut self, alloc: Global, key: &Key) -> Result<(), AllocError> {
        let name = String::from_str(alloc, key.name)?;
        drop(self.table.insert(name, some_value(alloc, key.content)?)?);
        Ok(())
    }

    /// Whether something else stands at a key.
    fn has(&self, key: &str) -> bool {
        self.keys.iter().any(|mended| *mended == key)
    }

    /// Whether a key doesn't fit the others as they are written: nothing else stands at it, nor at what it has to fit.
    fn is_mismatch(&self, key: &str) -> bool {
        !self.has(key) && !self.has("kind") && !self.has("show")
    }
}

/// More keys than any section knows.
const MOST_KEYS: usize = 16;

/// The row of a key of a section.
fn key_named(section: Section, name: &str) -> Option<&'static Key> {
    keys_of(section).iter().find(|key| key.name == name)
}

/// Something that may stand at a key; the most, where it is a number, unless that depends on another key.
fn some_value(alloc: Global, content: KeyContent) -> Result<Value, AllocError> {
    Ok(match content {
        KeyContent::Number(_, last) => Value::Integer(last),
        KeyContent::NumberTo(first, _) | KeyContent::NumberBelow(first, _) => Value::Integer(first),
        KeyContent::Outstation => Value::Integer(0),
        KeyContent::Word(words) => text_value(alloc, words.first().copied().unwrap_or(""))?,
        KeyContent::Text => text_value(alloc, "")?,
        KeyContent::PosixRule => text_value(alloc, SOME_RULE)?,
        KeyContent::Flag => Value::Boolean(false),
    })
}

/// A rule that may stand where one is wanted.
const SOME_RULE: &str = "UTC0";

fn text_value(alloc: Global, text: &str) -> Result<Value, AllocError> {
    Ok(Value::String(String::from_str(alloc, text)?))
}
