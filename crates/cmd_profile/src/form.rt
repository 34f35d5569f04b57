//! What the sheet is made of, whatever form it has.

use crate::effect::{Effect, Factor};
use cmd_text::Plain;
use gw_map::{Operates, Scale};
use std::fmt::{self, Write as _};
use std::io;

/// A form of the sheet: how its parts are written.
pub(crate) trait Form {
    /// Begins the sheet.
    fn begin(&mut self, title: &str, digest: &str) -> io::Result<()>;

    /// Something that is known of the sheet itself.
    fn fact<D: fmt::Display + Drop>(&mut self, word: &str, fact: D) -> io::Result<()>;

    /// Begins a chapter.
    fn chapter(&mut self, title: &str) -> io::Result<()>;

    /// Begins a chapter of wide tables; all chapters behind it are wide too.
    fn wide_chapter(&mut self, title: &str) -> io::Result<()>;

    /// A line for whoever reads the sheet.
    fn note<D: fmt::Display + Drop>(&mut self, note: D) -> io::Result<()>;

    /// Something that is used or isn't.
    fn mark<D: fmt::Display + Drop>(&mut self, is_used: bool, text: D) -> io::Result<()>;

    /// Begins a table with these columns.
    fn table(&mut self, columns: &'static [Column]) -> io::Result<()>;

    /// A row of the table: its first cell, and those behind it.
    fn row(&mut self, first: Cell<'_>, others: &[Cell<'_>]) -> io::Result<()>;

    /// Ends the sheet.
    fn end(&mut self) -> io::Result<()>;
}

/// A column of a table: its head, and how many characters a line of text has for it, 0 for as many as there are.
#[derive(Clone, Copy)]
pub(crate) enum Column {
    Words(&'static str, usize),
    /// Numbers stand below each other by their last digit.
    Numbers(&'static str, usize),
}

impl Column {
    /// Its head.
    pub(crate) fn head(self) -> &'static str {
        match self {
            Column::Words(head, _) | Column::Numbers(head, _) => head,
        }
    }

    /// How wide it is in a line of text.
    pub(crate) fn width(self) -> usize {
        match self {
            Column::Words(_, width) | Column::Numbers(_, width) => width,
        }
    }

    /// Whether its cells are numbers.
    pub(crate) fn has_numbers(self) -> bool {
        matches!(self, Column::Numbers(..))
    }
}

/// What stands in a cell of a table.
#[derive(Clone, Copy)]
pub(crate) enum Cell<'a> {
    Word(&'a str),
    Number(u64),
    /// What a value is multiplied by.
    Factor(Scale),
    /// What a command does.
    Effect(Operates),
    /// What it is called, if it has a name.
    Name(Option<&'a str>),
    /// Nothing: a place to write on.
    Blank,
    /// Nothing, and nothing to write there.
    Unused,
}

impl<'a> fmt::Display for Cell<'a> {
    fn fmt<W: fmt::Write>(&self, f: &mut fmt::Formatter<W>) -> fmt::Result {
        match self {
            Cell::Word(word) | Cell::Name(Some(word)) => fmt::Display::fmt(&Plain(*word), f),
            Cell::Number(number) => fmt::Display::fmt(number, f),
            Cell::Factor(scale) => fmt::Display::fmt(&Factor(*scale), f),
            Cell::Effect(operates) => fmt::Display::fmt(&Effect(*operates), f),
            Cell::Name(None) | Cell::Blank | Cell::Unused => Ok(()),
        }
    }
}

/// Marks lines of which each begins with `[x] ` where it is used, and with `[ ] ` where it isn't.
pub(crate) fn write_marks<F: Form>(lines: &str, form: &mut F) -> io::Result<()> {
    for line in lines.lines() {
        match line.strip_prefix("[x] ") {
            Some(used) => form.mark(true, used)?,
            None => form.mark(false, line.strip_prefix("[ ] ").unwrap_or(line))?,
        }
    }
    Ok(())
}

/// Makes a text what is shown of something.
pub(crate) fn fill<D: fmt::Display>(text: &mut String, shown: &D) -> io::Result<()> {
    text.clear();
    match write!(text, "{shown}") {
        Ok(()) => Ok(()),
        Err(_) => Err(io::ErrorKind::OutOfMemory.into()),
    }
}
