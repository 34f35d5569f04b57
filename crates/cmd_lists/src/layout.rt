//! How the octets of a list are laid out: what separates its fields, and in which row of the spreadsheet each record stands.

use crate::fault::ListFault;
use crate::told::Told;
use std::alloc::{AllocError, Global};

/// What may stand in front of a text in UTF-8.
const BYTE_ORDER_MARK: [u8; 3] = [0xEF, 0xBB, 0xBF];

/// How a list is laid out.
#[derive(Drop)]
pub(crate) struct Layout {
    /// What separates fields: `;` or `,`.
    pub(crate) separator: u8,
    /// The row in which each record stands. Lines with nothing in them are rows without a record.
    pub(crate) rows: Vec<usize>,
}

/// Where in a record a scan is.
#[derive(Clone, Copy)]
enum Place {
    /// At the beginning of a field.
    Front,
    /// Within a field without quotation marks, or behind one with them.
    Plain,
    /// Within a field with quotation marks.
    Quoted,
    /// Behind a quotation mark in such a field: it ends the field, or is the first of two that stand for one.
    Behind,
}

/// A scan of a list's octets.
#[derive(Drop)]
struct Scan {
    layout: Layout,
    line: usize,
    row: usize,
    place: Place,
    /// Nothing stands in the row so far.
    is_blank: bool,
    /// A CR came last, outside of quotation marks.
    is_behind_return: bool,
    /// The line in which a quotation mark began the last field.
    opened: usize,
}

impl Scan {
    /// Takes the octets of a list.
    fn take_all(&mut self, octets: &[u8], faults: &mut Told<ListFault>) -> Result<(), AllocError> {
        for octet in octets {
            self.take(*octet, faults)?;
        }
        self.end(faults)
    }

    /// Takes an octet.
    fn take(&mut self, octet: u8, faults: &mut Told<ListFault>) -> Result<(), AllocError> {
        if self.is_behind_return && octet != b'\n' {
            faults.add(ListFault::LoneReturn(self.line))?;
            self.is_behind_return = false;
        }
        match octet {
            0 => faults.add(ListFault::Nul(self.line)),
            b'\n' => self.end_line(),
            b'\r' if self.place != Place::Quoted => {
                self.is_behind_return = true;
                Ok(())
            }
            other => {
                self.is_blank = false;
                self.go_on(other);
                Ok(())
            }
        }
    }

    /// Takes an octet of a field, or one that separates two.
    fn go_on(&mut self, octet: u8) {
        let is_separator = octet == self.layout.separator;
        self.place = match self.place {
            Place::Front if octet == b'"' => {
                self.opened = self.line;
                Place::Quoted
            }
            Place::Quoted if octet == b'"' => Place::Behind,
            Place::Behind if octet == b'"' => Place::Quoted,
            Place::Quoted => Place::Quoted,
            _ if is_separator => Place::Front,
            _ => Place::Plain,
        };
    }

    /// Takes the end of a line, which ends the row outside of quotation marks.
    fn end_line(&mut self) -> Result<(), AllocError> {
        self.line = self.line.saturating_add(1);
        self.is_behind_return = false;
        if self.place == Place::Quoted {
            return Ok(());
        }
        self.end_row()?;
        self.row = self.row.saturating_add(1);
        self.place = Place::Front;
        self.is_blank = true;
        Ok(())
    }

    /// Notes the record of a row, if there is one.
    fn end_row(&mut self) -> Result<(), AllocError> {
        if !self.is_blank {
            self.layout.rows.push(self.row)?;
        }
        Ok(())
    }

    /// Takes the end of the list.
    fn end(&mut self, faults: &mut Told<ListFault>) -> Result<(), AllocError> {
        if self.is_behind_return {
            faults.add(ListFault::LoneReturn(self.line))?;
        }
        if self.place == Place::Quoted {
            faults.add(ListFault::OpenQuote(self.opened))?;
        }
        self.end_row()
    }
}

/// How a list is laid out; and what makes it none.
pub(crate) fn layout_of(
    alloc: Global,
    octets: &[u8],
    faults: &mut Told<ListFault>,
) -> Result<Layout, AllocError> {
    let text = without_mark(octets);
    let mut scan = Scan {
        layout: Layout {
            separator: separator_of(text),
            rows: Vec::new(alloc),
        },
        line: 1,
        row: 1,
        place: Place::Front,
        is_blank: true,
        is_behind_return: false,
        opened: 1,
    };
    scan.take_all(text, faults)?;
    Ok(scan.layout)
}

/// A text without the mark that may stand in front of it.
fn without_mark(octets: &[u8]) -> &[u8] {
    match octets.strip_prefix(&BYTE_ORDER_MARK) {
        Some(text) => text,
        None => octets,
    }
}

/// The first `;` or `,` outside of quotation marks in the first line with one; `,` where there is none.
fn separator_of(text: &[u8]) -> u8 {
    let mut is_quoted = false;
    for octet in text {
        match *octet {
            b'"' => is_quoted = !is_quoted,
            b';' | b',' if !is_quoted => return *octet,
            _ => {}
        }
    }
    b','
}

/// The line in which the octet at a place stands.
pub(crate) fn line_at(octets: &[u8], place: usize) -> usize {
    let mut line: usize = 1;
    for octet in octets.iter().take(place) {
        if *octet == b'\n' {
            line = line.saturating_add(1);
        }
    }
    line
}
