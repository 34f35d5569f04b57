//! What is wrong with a list, in sentences for a person.

use crate::columns::COLUMNS;
use crate::problem::CellProblem;
use crate::told::Told;
use cmd_text::Plain;
use std::alloc::AllocError;
use std::fmt;
use thiserror::Error;

/// Why a list can't be used.
#[derive(Debug, Drop, Error)]
pub enum BadList {
    /// Memory ran out while it was read.
    #[error("no memory")]
    Memory(#[from(alloc)] AllocError),
    /// What is wrong with it.
    #[error("the list has {count} faults", count = .0.count())]
    Refused(Told<ListFault>),
}

/// Something that is wrong with a list. Lines and rows are counted from 1, and the names of the columns are row 1.
#[derive(Drop)]
pub enum ListFault {
    /// It is no text.
    NotText(usize),
    /// A NUL stands in a line.
    Nul(usize),
    /// A line has a CR that ends nothing.
    LoneReturn(usize),
    /// A field that begins with a quotation mark ends nowhere.
    OpenQuote(usize),
    /// There is not even a row of names.
    NoNames,
    /// A column that no list has.
    UnknownColumn(String),
    /// A column stands there twice.
    DoubleColumn(&'static str),
    /// A column is needed and isn't there.
    MissingColumn(&'static str),
    /// A field has something in it and stands in no column.
    Stray {
        /// The row.
        row: usize,
        /// The number of the field, from 1.
        field: usize,
    },
    /// A cell.
    Cell {
        /// The row.
        row: usize,
        /// The column.
        column: &'static str,
        /// What is wrong there.
        problem: CellProblem,
    },
    /// There are more points and controls than settings may have.
    TooMany {
        /// How many there are.
        count: usize,
        /// How many there may be.
        most: usize,
    },
}

// What is wrong with a line.

const NOT_TEXT: &str = "it is no text in UTF-8, as which a list has to be saved";

const NUL: &str = "a NUL stands there, which is no text";

const LONE_RETURN: &str = "a CR stands there without the LF that ends a line";

const OPEN_QUOTE: &str = "a field begins there with a quotation mark, and no other one ends it";

impl fmt::Display for ListFault {
    fn fmt<W: fmt::Write>(&self, f: &mut fmt::Formatter<W>) -> fmt::Result {
        match self {
            ListFault::NotText(line) => write_at_line(f, *line, NOT_TEXT),
            ListFault::Nul(line) => write_at_line(f, *line, NUL),
            ListFault::LoneReturn(line) => write_at_line(f, *line, LONE_RETURN),
            ListFault::OpenQuote(line) => write_at_line(f, *line, OPEN_QUOTE),
            ListFault::NoNames => f.write_str("row 1: there are no names of columns"),
            ListFault::UnknownColumn(name) => write_unknown(f, name.as_str()),
            ListFault::DoubleColumn(column) => write_of_column(
                f,
                "row 1, column",
                *column,
                ": it stands there twice",
            ),
            ListFault::MissingColumn(column) => write_of_column(
                f,
                "row 1: the column",
                *column,
                " is missing",
            ),
            ListFault::Stray { row, field } => write_stray(f, *row, *field),
            ListFault::Cell {
                row,
                column,
                problem,
            } => write_cell(f, *row, *column, problem),
            ListFault::TooMany { count, most } => write_too_many(f, *count, *most),
        }
    }
}

/// Writes what is wrong with a line.
fn write_at_line<W: fmt::Write>(f: &mut fmt::Formatter<W>, line: usize, what: &str) -> fmt::Result {
    write!(f, "line {line}: {what}")
}

/// Writes that no list has a column of a name, and which ones a list may have.
fn write_unknown<W: fmt::Write>(f: &mut fmt::Formatter<W>, name: &str) -> fmt::Result {
    let (name, columns) = (Plain(name), Columns);
    write!(
        f,
        "row 1, column \"{name}\": a list has no such column; allowed: {columns}"
    )
}

/// Writes what is wrong with a column, with words before its name and behind it.
fn write_of_column<W: fmt::Write>(
    f: &mut fmt::Formatter<W>,
    before: &str,
    column: &str,
    behind: &str,
) -> fmt::Result {
    write!(f, "{before} {column}{behind}")
}

/// Writes that a field stands in no column.
fn write_stray<W: fmt::Write>(f: &mut fmt::Formatter<W>, row: usize, field: usize) -> fmt::Result {
    write!(
        f,
        "row {row}, field {field}: it stands in no column that has a name"
    )
}

/// Writes what is wrong with a cell.
fn write_cell<W: fmt::Write>(
    f: &mut fmt::Formatter<W>,
    row: usize,
    column: &str,
    problem: &CellProblem,
) -> fmt::Result {
    write!(f, "row {row}, column {column}: {problem}")
}

/// Writes that there are too many points and controls.
fn write_too_many<W: fmt::Write>(
    f: &mut fmt::Formatter<W>,
    count: usize,
    most: usize,
) -> fmt::Result {
    write!(
        f,
        "there are {count} points and controls; allowed: at most {most}"
    )
}

/// The columns that a list may have.
#[derive(Clone, Copy)]
struct Columns;

impl fmt::Display for Columns {
    fn fmt<W: fmt::Write>(&self, f: &mut fmt::Formatter<W>) -> fmt::Result {
        let mut joint = "";
        for column in &COLUMNS {
            f.write_str(joint)?;
            f.write_str(column)?;
            joint = ", ";
        }
        Ok(())
    }
}
