//! What is wrong with a settings file, in sentences for a person.

use crate::allowed::write_allowed;
use crate::document::faults_in;
use crate::faults::{EntryPlace, FaultList, FileFault, MOST_TOLD};
use crate::reading::Unusable;
use cmd_profile::{Fault, KeyPlace, Plain, Section, SettingsFault};
use std::alloc::Global;
use std::io::{self, Write};
use std::str;
use toml::{Table, Value};

/// Writes why the octets of a settings file can't be used, with what stands in front of each line: of all that is wrong with
/// its entries, the first hundred, each with which entry it is, what was found there, and what is allowed, and how many more
/// there are; of a text that is no TOML document the line and column where reading stopped.
pub fn explain<W: Write>(
    alloc: Global,
    octets: &[u8],
    why: &Unusable,
    front: &str,
    writer: &mut W,
) -> io::Result<()> {
    let sentence = match why {
        Unusable::File => "The file can't be read.",
        Unusable::Memory => "There is not enough memory to read the file.",
        Unusable::NotText => "The file is no text in UTF-8.",
        Unusable::Refused(fault) => return write_fault(alloc, octets, fault, front, writer),
    };
    writeln!(writer, "{front}{sentence}")
}

/// Writes what is wrong with the text of a file.
fn write_fault<W: Write>(
    alloc: Global,
    octets: &[u8],
    fault: &SettingsFault,
    front: &str,
    writer: &mut W,
) -> io::Result<()> {
    match fault {
        SettingsFault::Toml(error) => {
            writeln!(writer, "{front}The file is no TOML document: {error}")
        }
        SettingsFault::Memory => writeln!(
            writer,
            "{front}There is not enough memory to read the file."
        ),
        SettingsFault::Refused(..) => match table_of(alloc, octets) {
            Some(top) => write_faults(alloc, &top, front, writer),
            None => Ok(()),
        },
    }
}

/// Writes all that is wrong with a document: its entries, then sources and information objects that stand twice.
fn write_faults<W: Write>(
    alloc: Global,
    top: &Table,
    front: &str,
    writer: &mut W,
) -> io::Result<()> {
    let found = match faults_in(alloc, top) {
        Ok(found) => found,
        Err(_) => return Err(io::ErrorKind::OutOfMemory.into()),
    };
    let told = write_list(&found.of_entries, MOST_TOLD, top, front, writer)?;
    let room = MOST_TOLD.saturating_sub(told);
    let told = write_list(found.seen.double_sources(), room, top, front, writer)?;
    let room = room.saturating_sub(told);
    write_list(found.seen.double_objects(), room, top, front, writer)?;
    write_more(found.count().saturating_sub(MOST_TOLD), front, writer)
}

/// Writes the first of some faults, at most so many; gives how many.
fn write_list<W: Write>(
    faults: &FaultList,
    most: usize,
    top: &Table,
    front: &str,
    writer: &mut W,
) -> io::Result<usize> {
    let told = faults.front(most);
    for fault in told {
        writer.write_all(front.as_bytes())?;
        write_place(fault, top, writer)?;
    }
    Ok(told.len())
}

/// Writes how many faults there are besides those that were written, if there are any.
fn write_more<W: Write>(more: usize, front: &str, writer: &mut W) -> io::Result<()> {
    if more == 0 {
        return Ok(());
    }
    writeln!(writer, "{front}and {more} more")
}

/// The document that the octets of a file are, if they are one.
fn table_of(alloc: Global, octets: &[u8]) -> Option<Table> {
    let text = str::from_utf8(octets).ok()?;
    toml::table_from_str(alloc, text).ok()
}

/// Writes a sentence on what is wrong at a place of a document.
fn write_place<W: Write>(found: &FileFault, top: &Table, writer: &mut W) -> io::Result<()> {
    let place = &found.place;
    let entry = entry_at(top, place.section, place.position);
    write_entry(place.section, place.position, entry, writer)?;
    write!(writer, ": ")?;
    write_found(found.fault, place, top, entry, writer)?;
    write_first(found.first, top, writer)?;
    write!(writer, "; allowed: ")?;
    write_allowed(place.section, place.key.as_str(), writer)?;
    writeln!(writer, ".")
}

/// Writes which entry in front has the same, if one has.
fn write_first<W: Write>(first: Option<EntryPlace>, top: &Table, writer: &mut W) -> io::Result<()> {
    let Some(EntryPlace { section, position }) = first else {
        return Ok(());
    };
    write!(writer, ", as in ")?;
    write_entry(section, position, entry_at(top, section, position), writer)
}

/// The entries of a section that is a list.
fn entries<'a>(top: &'a Table, section: Section) -> &'a [Value] {
    match top.get(section.name()) {
        Some(Value::Array(values)) => values.as_slice(),
        _ => &[],
    }
}

/// The table of an entry, if it has one.
fn entry_at(top: &Table, section: Section, position: usize) -> Option<&Table> {
    let found = match section {
        Section::Top => return Some(top),
        Section::Station => top.get("station"),
        section => entries(top, section).get(position),
    };
    found?.as_table()
}

/// The value at a key of a table, if there is one.
fn value_at<'a>(table: Option<&'a Table>, key: &str) -> Option<&'a Value> {
    table?.get(key)
}

/// Writes which entry it is: its section, its position, and its address and outstation where it has them.
fn write_entry<W: Write>(
    section: Section,
    position: usize,
    entry: Option<&Table>,
    writer: &mut W,
) -> io::Result<()> {
    let name = section.name();
    match section {
        Section::Top | Section::Station => write!(writer, "{name}"),
        Section::Outstation | Section::Point | Section::Control => {
            write!(writer, "{name} {position}")?;
            write_number(" of outstation ", value_at(entry, "outstation"), writer)?;
            write_number(" with address ", value_at(entry, "address"), writer)
        }
    }
}

/// Writes words and the whole number behind them, if there is one.
fn write_number<W: Write>(words: &str, value: Option<&Value>, writer: &mut W) -> io::Result<()> {
    match value {
        Some(Value::Integer(number)) => write!(writer, "{words}{number}"),
        _ => Ok(()),
    }
}

/// Writes what was found.
fn write_found<W: Write>(
    fault: Fault,
    place: &KeyPlace,
    top: &Table,
    entry: Option<&Table>,
    writer: &mut W,
) -> io::Result<()> {
    let key = place.key.as_str();
    match fault {
        Fault::UnknownKey => write!(writer, "there is no key {}", Plain(key)),
        Fault::Missing => write!(writer, "{key} is missing"),
        Fault::OutOfRange if key == "count" => {
            let count = entries(top, place.section).len();
            write!(writer, "there are {count}")
        }
        _ => write_at_key(key, value_at(entry, key), writer),
    }
}

/// Writes a key and what stands there.
fn write_at_key<W: Write>(key: &str, value: Option<&Value>, writer: &mut W) -> io::Result<()> {
    write!(writer, "{key} is ")?;
    write_value(value, writer)
}

/// Writes a value, or of which type it is.
fn write_value<W: Write>(value: Option<&Value>, writer: &mut W) -> io::Result<()> {
    let Some(value) = value else {
        return write!(writer, "left out, so its default stands");
    };
    if let Some(number) = value.as_integer() {
        return write!(writer, "{number}");
    }
    if let Some(text) = value.as_str() {
        return write!(writer, "\"{}\"", Plain(text));
    }
    if let Some(flag) = value.as_bool() {
        return write!(writer, "{flag}");
    }
    let kind = value.type_str();
    write!(writer, "of type {kind}")
}
