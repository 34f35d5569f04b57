//! Reading a list.

use crate::cells::{Cells, Header};
use crate::doubles::RowsBefore;
use crate::fault::{BadList, ListFault};
use crate::layout::{layout_of, line_at};
use crate::list::{List, ListRow, Listed};
use crate::problem::CellProblem;
use crate::row::read_row;
use crate::told::Told;
use csv::{Error, Reader, ReaderBuilder, StringRecord};
use gw_map::{Outstation, ROWS};
use gw_model::ObjectKey;
use std::alloc::{AllocError, Global};
use std::str;

/// The outstations of the settings for which a list is read.
#[derive(Clone, Copy)]
pub struct Outstations<'a> {
    /// Those of the settings, in their order.
    pub known: &'a [Outstation],
    /// Each row has to be of one of these, and no other common address than its may stand there.
    pub are_all: bool,
}

impl<'a> Outstations<'a> {
    /// How many there may be.
    pub(crate) fn count(&self) -> u16 {
        if self.are_all {
            self.known.len().min(255) as u16
        } else {
            255
        }
    }

    /// The common address of the one at a position, if it is known.
    pub(crate) fn common_address(&self, position: u8) -> Option<u16> {
        Some(self.known.get(usize::from(position))?.common_address)
    }
}

/// The list that the octets of a file are, or all that is wrong with it.
pub fn read_list(
    alloc: Global,
    octets: &[u8],
    outstations: &Outstations<'_>,
) -> Result<List, BadList> {
    let mut reading = Reading {
        alloc,
        list: List {
            rows: Vec::new(alloc),
        },
        faults: Told::new(alloc),
        before: RowsBefore::new(alloc),
    };
    reading.read(octets, outstations)?;
    reading.into_list()
}

/// A list that is read, and what is wrong with it.
#[derive(Drop)]
struct Reading {
    alloc: Global,
    list: List,
    faults: Told<ListFault>,
    before: RowsBefore,
}

impl Reading {
    /// Reads the octets of a file.
    fn read(&mut self, octets: &[u8], outstations: &Outstations<'_>) -> Result<(), AllocError> {
        if let Err(error) = str::from_utf8(octets) {
            let line = line_at(octets, error.valid_up_to());
            return self.faults.add(ListFault::NotText(line));
        }
        let layout = layout_of(self.alloc, octets, &mut self.faults)?;
        if self.faults.count() != 0 {
            return Ok(());
        }
        self.read_records(octets, layout.separator, &layout.rows, outstations)?;
        self.count_rows()
    }

    /// Reads the records of a text, which stand in these rows.
    fn read_records(
        &mut self,
        octets: &[u8],
        separator: u8,
        rows: &[usize],
        outstations: &Outstations<'_>,
    ) -> Result<(), AllocError> {
        let mut reader = ReaderBuilder::new()
            .has_headers(false)
            .flexible(true)
            .delimiter(separator)
            .from_reader(self.alloc, octets);
        match self.read_header(&mut reader)? {
            Some(header) => self.read_rows(&header, &mut reader, rows, outstations),
            None => self.faults.add(ListFault::NoNames),
        }
    }

    /// The columns that the first record names, if there is one.
    fn read_header(&mut self, reader: &mut Reader<&[u8]>) -> Result<Option<Header>, AllocError> {
        match reader.records().next() {
            Some(names) => {
                let names = record_of(names)?;
                let header = Header::read(self.alloc, &names, &mut self.faults)?;
                Ok(Some(header))
            }
            None => Ok(None),
        }
    }

    /// Reads the records below the names of the columns; the first of the rows is that of the names.
    fn read_rows(
        &mut self,
        header: &Header,
        reader: &mut Reader<&[u8]>,
        rows: &[usize],
        outstations: &Outstations<'_>,
    ) -> Result<(), AllocError> {
        let mut numbers = rows.iter();
        let _row_of_names = numbers.next();
        for record in reader.records() {
            let row = numbers.next().copied().unwrap_or(0);
            self.read_record(header, record, row, outstations)?;
        }
        Ok(())
    }

    /// Reads a record below the names of the columns, which stands in a row.
    fn read_record(
        &mut self,
        header: &Header,
        record: Result<StringRecord, Error>,
        row: usize,
        outstations: &Outstations<'_>,
    ) -> Result<(), AllocError> {
        let record = record_of(record)?;
        self.read_cells(header, &record, row, outstations)
    }

    /// Reads the cells of a row.
    fn read_cells(
        &mut self,
        header: &Header,
        record: &StringRecord,
        row: usize,
        outstations: &Outstations<'_>,
    ) -> Result<(), AllocError> {
        let cells = Cells {
            alloc: self.alloc,
            header,
            record,
            row,
        };
        if cells.are_empty() {
            return Ok(());
        }
        cells.refuse_strays(&mut self.faults)?;
        match read_row(&cells, outstations, &mut self.faults)? {
            Some(read) => self.add(read, outstations),
            None => Ok(()),
        }
    }

    /// Adds a row, and what is wrong with it beside the earlier ones.
    fn add(&mut self, read: ListRow, outstations: &Outstations<'_>) -> Result<(), AllocError> {
        self.judge(&read, outstations)?;
        self.list.rows.push(read)?;
        Ok(())
    }

    /// Adds what is wrong with a row where an earlier one has what only one may have.
    fn judge(&mut self, read: &ListRow, outstations: &Outstations<'_>) -> Result<(), AllocError> {
        let (listed, row) = (read.listed, read.row);
        self.add_source(listed, row)?;
        self.add_object(listed, row, outstations)
    }

    /// Adds what a row is of, and that an earlier one is of the same.
    fn add_source(&mut self, listed: Listed, row: usize) -> Result<(), AllocError> {
        let Some(first) = self.before.same_source(listed, row)? else {
            return Ok(());
        };
        match listed {
            Listed::Outstation(_) => {
                self.refuse(row, "outstation", CellProblem::SameOutstation(first))
            }
            Listed::Point(..) | Listed::Control { .. } => {
                self.refuse(row, "index", CellProblem::SameSource(first))
            }
        }
    }

    /// Adds the information object of a row, and that an earlier one has the same.
    fn add_object(
        &mut self,
        listed: Listed,
        row: usize,
        outstations: &Outstations<'_>,
    ) -> Result<(), AllocError> {
        let common_address = outstations.common_address(listed.outstation());
        let (Some(common_address), Some(address)) = (common_address, listed.address()) else {
            return Ok(());
        };
        let object = ObjectKey {
            common_address,
            address,
        };
        match self.before.same_object(object, row)? {
            Some(first) => self.refuse(row, "address", CellProblem::SameObject(first)),
            None => Ok(()),
        }
    }

    /// Adds what is wrong with a cell.
    fn refuse(
        &mut self,
        row: usize,
        column: &'static str,
        problem: CellProblem,
    ) -> Result<(), AllocError> {
        self.faults.add(ListFault::Cell {
            row,
            column,
            problem,
        })
    }

    /// Refuses more points and controls than settings may have.
    fn count_rows(&mut self) -> Result<(), AllocError> {
        let mut count: usize = 0;
        for row in &self.list.rows {
            if row.listed.address().is_some() {
                count = count.saturating_add(1);
            }
        }
        if count > ROWS {
            self.faults.add(ListFault::TooMany { count, most: ROWS })
        } else {
            Ok(())
        }
    }

    /// The list, or all that is wrong with it.
    fn into_list(self) -> Result<List, BadList> {
        let Reading { list, faults, .. } = self;
        if faults.count() == 0 {
            Ok(list)
        } else {
            Err(BadList::Refused(faults))
        }
    }
}

/// A record of a text that lies in memory, of which nothing keeps it but that there is none left for it.
fn record_of(read: Result<StringRecord, Error>) -> Result<StringRecord, AllocError> {
    match read {
        Ok(record) => Ok(record),
        Err(_) => Err(AllocError),
    }
}
