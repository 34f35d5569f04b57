//! What may stand at each key of a settings file, in words.

use cmd_profile::{Absence, Key, KeyContent, OUTSTATIONS, ROWS, Section, keys_of};
use std::fmt;
use std::io::{self, Write};

const POSIX_RULE: &str = "a rule of the variable TZ of POSIX, as \"CET-1CEST,M3.5.0,M10.5.0/3\"";

/// Writes what may stand at a key of a section.
pub(crate) fn write_allowed<W: Write>(
    section: Section,
    name: &str,
    writer: &mut W,
) -> io::Result<()> {
    if name == "count" {
        return write_limit(section, writer);
    }
    for key in keys_of(section) {
        if key.name == name {
            write_content(key, writer)?;
            return writer.write_all(note(section, name).as_bytes());
        }
    }
    match section {
        Section::Top => writer.write_all(allowed_at_top(name).as_bytes()),
        _ => write_names(section, writer),
    }
}

/// Writes how many entries a section may have.
fn write_limit<W: Write>(section: Section, writer: &mut W) -> io::Result<()> {
    match section {
        Section::Outstation => write!(writer, "at most {OUTSTATIONS} outstations"),
        Section::Point => write!(writer, "at most {ROWS} points"),
        _ => write!(writer, "at most {ROWS} points and controls together"),
    }
}

fn allowed_at_top(name: &str) -> &'static str {
    match name {
        "station" => "a table [station], which every settings file has",
        "outstation" => "a list of tables [[outstation]]",
        "point" => "a list of tables [[point]]",
        "control" => "a list of tables [[control]]",
        _ => "the sections station, outstation, point and control",
    }
}

/// Writes what may stand at a key by its row.
fn write_content<W: Write>(key: &Key, writer: &mut W) -> io::Result<()> {
    match key.content {
        KeyContent::Number(first, last) => write_range(first, &last, writer),
        KeyContent::NumberTo(first, other) => write_range(first, &other, writer),
        KeyContent::NumberBelow(first, other) => write_below(first, other, writer),
        KeyContent::Outstation => {
            writer.write_all(b"the position of an outstation in the file, from 0")
        }
        KeyContent::Word(words) => write_words(words, writer),
        KeyContent::Text => match key.absence {
            Absence::Text(text) => write_text_as(text, writer),
            _ => writer.write_all(b"a text"),
        },
        KeyContent::PosixRule => writer.write_all(POSIX_RULE.as_bytes()),
        KeyContent::Flag => writer.write_all(b"true or false"),
    }
}

/// Writes from which number to which a key may have.
fn write_range<W: Write, L: fmt::Display>(first: i64, last: &L, writer: &mut W) -> io::Result<()> {
    write!(writer, "a whole number from {first} to {last}")
}

/// Writes that a number is below that of another key.
fn write_below<W: Write>(first: i64, other: &str, writer: &mut W) -> io::Result<()> {
    write!(writer, "a whole number from {first} on, below {other}")
}

/// Writes that a text may stand at a key, with one that might.
fn write_text_as<W: Write>(text: &str, writer: &mut W) -> io::Result<()> {
    write!(writer, "a text, as \"{text}\"")
}

/// What else holds of a key.
fn note(section: Section, name: &str) -> &'static str {
    match (section, name) {
        (Section::Point, "index") => ", once for each outstation and kind",
        (Section::Point | Section::Control, "address") => " that no other point or control has",
        (Section::Point, "show") => {
            ": single for binary and output, double for double, total for counter, scaled or word for analog"
        }
        (Section::Point, "num" | "den") => ", for a scaled value alone",
        (Section::Control, "rest" | "short_ms" | "long_ms") => ", for single and double alone",
        (Section::Control, "num" | "den") => ", for setpoint alone",
        _ => "",
    }
}

/// What stands before the name at a place of a list of so many.
fn joint(place: usize, count: usize) -> &'static str {
    if place == 0 {
        " "
    } else if place == count.saturating_sub(1) {
        " and "
    } else {
        ", "
    }
}

fn write_words<W: Write>(words: &[&str], writer: &mut W) -> io::Result<()> {
    writer.write_all(b"one of")?;
    for (place, word) in words.iter().enumerate() {
        let joint = joint(place, words.len());
        write!(writer, "{joint}{word}")?;
    }
    Ok(())
}

/// Writes the keys that the entries of a section may have.
fn write_names<W: Write>(section: Section, writer: &mut W) -> io::Result<()> {
    let keys = keys_of(section);
    writer.write_all(b"the keys")?;
    for (place, key) in keys.iter().enumerate() {
        let (joint, name) = (joint(place, keys.len()), key.name);
        write!(writer, "{joint}{name}")?;
    }
    Ok(())
}
