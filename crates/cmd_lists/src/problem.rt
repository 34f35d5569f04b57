//! What is wrong with a cell of a list.

use crate::allowed::Allowed;
use cmd_text::Plain;
use std::alloc::{AllocError, Global};
use std::fmt;

/// How many characters of what was found are told.
const SHOWN: usize = 40;

/// What is wrong with a cell.
#[derive(Drop)]
pub enum CellProblem {
    /// Something is needed there.
    Empty(Allowed),
    /// What stands there isn't allowed.
    NotAllowed(String, Allowed),
    /// A number with a decimal comma.
    DecimalComma(String),
    /// Rows of this sort have nothing there.
    Unfit(&'static str),
    /// Another common address than that of the outstation.
    OtherCommon(String, u16),
    /// A row before has the same point.
    SameSource(usize),
    /// A row before has the same information object.
    SameObject(usize),
    /// A row before has the same outstation.
    SameOutstation(usize),
}

// What an earlier row has too.

const SAME_SOURCE: &str = "has the same outstation, kind and index";

const SAME_OBJECT: &str = "has the same address and common address";

const SAME_OUTSTATION: &str = "is of the same outstation";

impl fmt::Display for CellProblem {
    fn fmt<W: fmt::Write>(&self, f: &mut fmt::Formatter<W>) -> fmt::Result {
        match self {
            CellProblem::Empty(allowed) => write_empty(f, *allowed),
            CellProblem::NotAllowed(found, allowed) => {
                write_not_allowed(f, found.as_str(), *allowed)
            }
            CellProblem::DecimalComma(found) => write_decimal_comma(f, found.as_str()),
            CellProblem::Unfit(what) => write_unfit(f, *what),
            CellProblem::OtherCommon(found, address) => {
                write_other_common(f, found.as_str(), *address)
            }
            CellProblem::SameSource(first) => write_same(f, *first, SAME_SOURCE),
            CellProblem::SameObject(first) => write_same(f, *first, SAME_OBJECT),
            CellProblem::SameOutstation(first) => write_same(f, *first, SAME_OUTSTATION),
        }
    }
}

/// Writes that a cell is empty, and what may stand there.
fn write_empty<W: fmt::Write>(f: &mut fmt::Formatter<W>, allowed: Allowed) -> fmt::Result {
    write!(f, "it is empty; allowed: {allowed}")
}

/// Writes what stands in a cell, and what may.
fn write_not_allowed<W: fmt::Write>(
    f: &mut fmt::Formatter<W>,
    found: &str,
    allowed: Allowed,
) -> fmt::Result {
    let found = Plain(found);
    write!(f, "\"{found}\" stands there; allowed: {allowed}")
}

/// Writes that a number has a decimal comma.
fn write_decimal_comma<W: fmt::Write>(f: &mut fmt::Formatter<W>, found: &str) -> fmt::Result {
    let found = Plain(found);
    write!(
        f,
        "\"{found}\" has a decimal comma; allowed: whole numbers alone, so that 0,5 is num 1 and den 2"
    )
}

/// Writes that rows of a sort have nothing in a column.
fn write_unfit<W: fmt::Write>(f: &mut fmt::Formatter<W>, what: &str) -> fmt::Result {
    write!(
        f,
        "something stands there, and {what} has nothing in that column"
    )
}

/// Writes which common address the outstation has.
fn write_other_common<W: fmt::Write>(
    f: &mut fmt::Formatter<W>,
    found: &str,
    address: u16,
) -> fmt::Result {
    let found = Plain(found);
    write!(
        f,
        "\"{found}\" stands there, and the outstation has the common address {address}"
    )
}

/// Writes which earlier row has the same of something.
fn write_same<W: fmt::Write>(f: &mut fmt::Formatter<W>, first: usize, what: &str) -> fmt::Result {
    write!(f, "row {first} {what}")
}

impl CellProblem {
    /// That what was found isn't allowed. A number with a decimal comma is told as such.
    pub(crate) fn not_allowed(
        alloc: Global,
        found: &str,
        allowed: Allowed,
    ) -> Result<CellProblem, AllocError> {
        let text = shorten(alloc, found)?;
        if allowed.is_number() && has_decimal_comma(found) {
            Ok(CellProblem::DecimalComma(text))
        } else {
            Ok(CellProblem::NotAllowed(text, allowed))
        }
    }
}

/// Whether a text is digits with one comma between them.
fn has_decimal_comma(text: &str) -> bool {
    match text.split_once(',') {
        Some((whole, part)) => is_digits(whole.trim_start_matches('-')) && is_digits(part),
        None => false,
    }
}

fn is_digits(text: &str) -> bool {
    !text.is_empty() && text.bytes().all(|octet| octet.is_ascii_digit())
}

/// As much of a text as is told of it.
pub(crate) fn shorten(alloc: Global, text: &str) -> Result<String, AllocError> {
    let mut front = String::new(alloc);
    push_shortened(text, &mut front)?;
    Ok(front)
}

/// Adds as much of a text as is told of it.
fn push_shortened(text: &str, front: &mut String) -> Result<(), AllocError> {
    for (place, character) in text.chars().enumerate() {
        if place >= SHOWN {
            return front.push_str("..");
        }
        front.push(character)?;
    }
    Ok(())
}
