//! The cells of a list, by their columns.

use crate::columns::{NEEDED, column_named};
use crate::fault::ListFault;
use crate::problem::shorten;
use crate::told::Told;
use csv::StringRecord;
use std::alloc::{AllocError, Global};

/// What a field of the first row names.
#[derive(Clone, Copy)]
enum Named {
    /// A column.
    Column(&'static str),
    /// No column that lists have, or one that stands there twice.
    Other,
    /// Nothing.
    Nothing,
}

/// The columns of a list, in their order.
#[derive(Drop)]
pub(crate) struct Header {
    /// What each field names.
    fields: Vec<Named>,
}

impl Header {
    /// That of the first row; and what is wrong with it.
    pub(crate) fn read(
        alloc: Global,
        names: &StringRecord,
        faults: &mut Told<ListFault>,
    ) -> Result<Header, AllocError> {
        let mut header = Header {
            fields: Vec::new(alloc),
        };
        header.add_all(alloc, names, faults)?;
        Ok(header)
    }

    /// Adds the columns that the first row names, and which ones are missing.
    fn add_all(
        &mut self,
        alloc: Global,
        names: &StringRecord,
        faults: &mut Told<ListFault>,
    ) -> Result<(), AllocError> {
        for name in names.iter() {
            self.add(alloc, name.trim(), faults)?;
        }
        for column in &NEEDED {
            if !self.has(column) {
                faults.add(ListFault::MissingColumn(column))?;
            }
        }
        Ok(())
    }

    /// Adds the column that a text names.
    fn add(
        &mut self,
        alloc: Global,
        name: &str,
        faults: &mut Told<ListFault>,
    ) -> Result<(), AllocError> {
        let named = match column_named(name) {
            Some(column) if self.has(column) => {
                return self.refuse(ListFault::DoubleColumn(column), faults);
            }
            Some(column) => Named::Column(column),
            None if name.is_empty() => Named::Nothing,
            None => return self.refuse(ListFault::UnknownColumn(shorten(alloc, name)?), faults),
        };
        self.fields.push(named)?;
        Ok(())
    }

    /// Adds a field whose name can't be used, and why.
    fn refuse(&mut self, fault: ListFault, faults: &mut Told<ListFault>) -> Result<(), AllocError> {
        faults.add(fault)?;
        self.fields.push(Named::Other)?;
        Ok(())
    }

    /// Whether there is a column.
    pub(crate) fn has(&self, column: &str) -> bool {
        self.place_of(column).is_some()
    }

    /// The position of the fields of a column.
    fn place_of(&self, column: &str) -> Option<usize> {
        self.fields.iter().position(|it| match it {
            Named::Column(name) => *name == column,
            Named::Other | Named::Nothing => false,
        })
    }
}

/// The cells of a row.
#[derive(Clone, Copy)]
pub(crate) struct Cells<'a> {
    pub(crate) alloc: Global,
    pub(crate) header: &'a Header,
    pub(crate) record: &'a StringRecord,
    /// Its number.
    pub(crate) row: usize,
}

impl<'a> Cells<'a> {
    /// What stands in the cell of a column, without the spaces around it; nothing where there is no such column.
    pub(crate) fn at(&self, column: &str) -> &'a str {
        match self.header.place_of(column) {
            Some(place) => match self.record.get(place) {
                Some(text) => text.trim(),
                None => "",
            },
            None => "",
        }
    }

    /// Whether the list has a column.
    pub(crate) fn have(&self, column: &str) -> bool {
        self.header.has(column)
    }

    /// Whether nothing stands in the row.
    pub(crate) fn are_empty(&self) -> bool {
        self.record.iter().all(|text| text.trim().is_empty())
    }

    /// Adds the fields in which something stands and that are in no column.
    pub(crate) fn refuse_strays(&self, faults: &mut Told<ListFault>) -> Result<(), AllocError> {
        let mut names = self.header.fields.iter();
        let mut field: usize = 0;
        for text in self.record.iter() {
            field = field.saturating_add(1);
            let is_named = match names.next() {
                Some(Named::Column(_) | Named::Other) => true,
                Some(Named::Nothing) | None => false,
            };
            if !is_named && !text.trim().is_empty() {
                let row = self.row;
                faults.add(ListFault::Stray { row, field })?;
            }
        }
        Ok(())
    }
}
