//! What the sheet is of, and the places where it is signed.

use crate::form::{Cell, Column, Form};
use cmd_text::Plain;
use jiff::Timestamp;
use jiff::tz::Offset;
use std::{fmt, io};

/// What the sheet is of, and when it is written.
#[derive(Clone, Copy)]
pub struct Origin<'a> {
    /// The settings file, as it was named.
    pub file: &'a str,
    /// The SHA-256 of its octets, in hexadecimal digits.
    pub digest: &'a str,
    /// The gateway's version.
    pub version: &'a str,
    /// The commit that it was built from, if that is known.
    pub commit: Option<&'a str>,
    /// The list of names, as it was named, if there is one.
    pub names: Option<&'a str>,
    /// The second since 1970 at which it is written.
    pub second: u64,
}

const TITLE: &str = "Sheet of an IEC 60870-5-104 station and its DNP3 outstations";

const STATEMENT: [&str; 2] = [
    "Each signal that is ticked was tried with this gateway and the settings file of this SHA-256: plant and control centre \
    showed the same.",
    "A signal without a tick wasn't tried, and nothing is said of it.",
];

const SIGNATURES: [Column; 5] = [
    Column::Words("signed for", 14),
    Column::Words("name", 22),
    Column::Words("company", 18),
    Column::Words("date", 12),
    Column::Words("signature", 24),
];

/// Writes what the sheet is of, and the places where it is signed.
pub(crate) fn write_head<F: Form>(origin: Origin<'_>, form: &mut F) -> io::Result<()> {
    form.begin(TITLE, origin.digest)?;
    form.fact("site", "________________________________")?;
    form.fact("settings file", Plain(origin.file))?;
    form.fact("SHA-256", origin.digest)?;
    if let Some(names) = origin.names {
        form.fact("names", Plain(names))?;
    }
    form.fact("gateway", Build(origin))?;
    form.fact("written", Day(origin.second))?;
    write_signatures(form)
}

/// Writes what a signature says, and the places for them.
fn write_signatures<F: Form>(form: &mut F) -> io::Result<()> {
    form.chapter("Signatures")?;
    for sentence in STATEMENT {
        form.note(sentence)?;
    }
    form.table(&SIGNATURES)?;
    for who in ["control centre", "substation", "gateway"] {
        form.row(
            Cell::Word(who),
            &[Cell::Blank, Cell::Blank, Cell::Blank, Cell::Blank],
        )?;
    }
    Ok(())
}

/// The gateway's version, and its commit if that is known.
#[derive(Clone, Copy)]
struct Build<'a>(Origin<'a>);

impl<'a> fmt::Display for Build<'a> {
    fn fmt<W: fmt::Write>(&self, f: &mut fmt::Formatter<W>) -> fmt::Result {
        f.write_str(self.0.version)?;
        match self.0.commit {
            Some(commit) => write!(f, " (commit {commit})"),
            None => Ok(()),
        }
    }
}

/// The day of a second since 1970, in UTC.
#[derive(Clone, Copy)]
struct Day(u64);

impl fmt::Display for Day {
    fn fmt<W: fmt::Write>(&self, f: &mut fmt::Formatter<W>) -> fmt::Result {
        match instant_at(self.0) {
            Some(instant) => write_day(f, instant),
            None => Ok(()),
        }
    }
}

/// Writes the day of an instant.
fn write_day<W: fmt::Write>(f: &mut fmt::Formatter<W>, instant: Timestamp) -> fmt::Result {
    let civil = Offset::UTC.to_datetime(instant);
    let (year, month, day) = (civil.year(), civil.month(), civil.day());
    write!(f, "{year:04}-{month:02}-{day:02} (UTC)")
}

/// The instant at a second since 1970, if calendars have it.
fn instant_at(second: u64) -> Option<Timestamp> {
    Timestamp::from_second(i64::try_from(second).ok()?).ok()
}
