//! The values of points as one text, written piece by piece: nobody has to wait while the whole is written.

use crate::csv_text::{CsvRow, VALUE_COLUMNS};
use crate::html_row::HtmlRow;
use crate::json_row::JsonRow;
use crate::points::{Point, Points};
use crate::shown::ShownPoint;
use crate::table::{PointValue, TableHead};
use std::alloc::{AllocError, Global};
use std::fmt;

/// In which form values are written.
#[derive(Clone, Copy)]
pub enum Form {
    /// Rows of the page.
    Html,
    /// For a spreadsheet.
    Csv,
    /// For a program.
    Json,
}

/// Which values are written.
#[derive(Clone, Copy)]
pub struct Choice {
    pub form: Form,
    /// Those alone that changed at this moment or later, in milliseconds since 1970, if it is told.
    pub since: Option<u64>,
}

/// How many octets a row has, or more, as a guess for the room that is asked for.
const ROW_OCTETS: usize = 224;

/// The values of points as one text.
#[derive(Drop)]
pub struct Listing<'a> {
    points: &'a Points,
    choice: Choice,
    text: String,
    /// What stands in front of the next row.
    between: &'static str,
}

impl<'a> Listing<'a> {
    /// A text without a row, of a table of which this holds; with room for so many rows, of a gateway that started then.
    pub fn new(
        alloc: Global,
        points: &'a Points,
        choice: Choice,
        head: TableHead,
        started: u64,
        rows: usize,
    ) -> Result<Listing<'a>, AllocError> {
        let text = String::with_capacity(alloc, rows.saturating_mul(ROW_OCTETS))?;
        let mut listing = Listing {
            points,
            choice,
            text,
            between: "",
        };
        listing.begin(head, started)?;
        Ok(listing)
    }

    /// Writes what stands in front of all rows.
    fn begin(&mut self, head: TableHead, started: u64) -> Result<(), AllocError> {
        match self.choice.form {
            Form::Html => Ok(()),
            Form::Csv => self.text.push_str(VALUE_COLUMNS),
            Form::Json => {
                let TableHead { as_of, passed_over } = head;
                write!(
                    self.text,
                    "{{\"started\":{started},\"now\":{as_of},\"passed_over\":{passed_over},\"points\":["
                )
            }
        }
    }

    /// Writes those of some values that are chosen; the first is that of the point at a position.
    pub fn add(&mut self, from: usize, values: &[PointValue]) -> Result<(), AllocError> {
        let points = self.points;
        for (place, value) in values.iter().enumerate() {
            if let Some(point) = points.get(from.saturating_add(place)) {
                self.add_one(point, value)?;
            }
        }
        Ok(())
    }

    fn add_one(&mut self, point: &Point, value: &PointValue) -> Result<(), AllocError> {
        match self.choice.since {
            Some(since) if !value.changed_since(since) => Ok(()),
            _ => self.write(point, value),
        }
    }

    /// Writes the row of a point.
    fn write(&mut self, point: &Point, value: &PointValue) -> Result<(), AllocError> {
        let shown = ShownPoint::of(self.points, point, value);
        match self.choice.form {
            Form::Html => write_row(&mut self.text, HtmlRow(shown)),
            Form::Csv => write_row(&mut self.text, CsvRow(shown)),
            Form::Json => {
                self.text.push_str(self.between)?;
                self.between = ",\n";
                write_row(&mut self.text, JsonRow(shown))
            }
        }
    }

    /// The whole text.
    pub fn end(self) -> Result<String, AllocError> {
        let mut text = self.text;
        if let Form::Json = self.choice.form {
            text.push_str("]}\n")?;
        }
        Ok(text)
    }
}

/// Writes a row.
fn write_row<R: fmt::Display + Drop>(text: &mut String, row: R) -> Result<(), AllocError> {
    write!(text, "{row}")
}
