//! The sheet as text.

use crate::form::{Cell, Column, Form, fill};
use std::alloc::Global;
use std::fmt;
use std::io::{self, Write};

/// How many places stand between two columns.
const GAP: usize = 2;

/// The sheet as lines of text, whose tables have their columns at the same places in each line.
#[derive(Drop)]
pub(crate) struct TextForm<'a, W> {
    writer: &'a mut W,
    columns: &'static [Column],
    /// What the cell under way shows.
    shown: String,
    /// How many spaces stand in front of what is written next in the line, if anything is.
    spaces: usize,
}

impl<'a, W: Write> TextForm<'a, W> {
    /// A sheet of which nothing is written yet.
    pub(crate) fn new(alloc: Global, writer: &'a mut W) -> TextForm<'a, W> {
        TextForm {
            writer,
            columns: &[],
            shown: String::new(alloc),
            spaces: 0,
        }
    }

    /// Writes a cell of a column: what it shows, as wide as the column.
    fn write_cell(&mut self, column: Column, cell: Cell<'_>) -> io::Result<()> {
        fill(&mut self.shown, &cell)?;
        let missing = column.width().saturating_sub(self.shown.chars().count());
        if matches!(cell, Cell::Blank) {
            return self.write_line(missing);
        }
        if column.has_numbers() {
            self.skip(missing);
        }
        self.write_shown()?;
        if !column.has_numbers() {
            self.skip(missing);
        }
        Ok(())
    }

    /// Leaves so many places free.
    fn skip(&mut self, places: usize) {
        self.spaces = self.spaces.saturating_add(places);
    }

    /// Writes the spaces in front of something.
    fn write_spaces(&mut self) -> io::Result<()> {
        for _ in 0..self.spaces {
            self.writer.write_all(b" ")?;
        }
        self.spaces = 0;
        Ok(())
    }

    /// Writes what the cell under way shows, if it shows something.
    fn write_shown(&mut self) -> io::Result<()> {
        if self.shown.is_empty() {
            return Ok(());
        }
        self.write_spaces()?;
        self.writer.write_all(self.shown.as_bytes())
    }

    /// Writes a line to write on, over so many places.
    fn write_line(&mut self, places: usize) -> io::Result<()> {
        self.write_spaces()?;
        for _ in 0..places {
            self.writer.write_all(b"_")?;
        }
        Ok(())
    }

    /// Ends the line.
    fn end_line(&mut self) -> io::Result<()> {
        self.spaces = 0;
        self.writer.write_all(b"\n")
    }

    /// Writes the heads of the columns.
    fn write_heads(&mut self) -> io::Result<()> {
        let columns = self.columns;
        for (place, column) in columns.iter().enumerate() {
            if place != 0 {
                self.skip(GAP);
            }
            self.write_cell(*column, Cell::Word(column.head()))?;
        }
        self.end_line()
    }
}

impl<'a, W: Write> Form for TextForm<'a, W> {
    fn begin(&mut self, title: &str, _digest: &str) -> io::Result<()> {
        writeln!(self.writer, "{title}")
    }

    fn fact<D: fmt::Display + Drop>(&mut self, word: &str, fact: D) -> io::Result<()> {
        writeln!(self.writer, "{word:<14}  {fact}")
    }

    fn chapter(&mut self, title: &str) -> io::Result<()> {
        writeln!(self.writer, "\n{title}")
    }

    fn wide_chapter(&mut self, title: &str) -> io::Result<()> {
        self.chapter(title)
    }

    fn note<D: fmt::Display + Drop>(&mut self, note: D) -> io::Result<()> {
        writeln!(self.writer, "{note}")
    }

    fn mark<D: fmt::Display + Drop>(&mut self, is_used: bool, text: D) -> io::Result<()> {
        let mark = if is_used { 'x' } else { ' ' };
        writeln!(self.writer, "[{mark}] {text}")
    }

    fn table(&mut self, columns: &'static [Column]) -> io::Result<()> {
        self.columns = columns;
        self.write_heads()
    }

    fn row(&mut self, first: Cell<'_>, others: &[Cell<'_>]) -> io::Result<()> {
        let columns = self.columns;
        let Some((column, columns)) = columns.split_first() else {
            return Ok(());
        };
        self.write_cell(*column, first)?;
        for (column, cell) in columns.iter().zip(others) {
            self.skip(GAP);
            self.write_cell(*column, *cell)?;
        }
        self.end_line()
    }

    fn end(&mut self) -> io::Result<()> {
        Ok(())
    }
}
