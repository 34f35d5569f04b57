//! Writing the list of settings.

use crate::matching::RowsOf;
use cmd_lists::{COLUMNS, List, ListRow};
use cmd_profile::{control_word, kind_word, mode_word, show_word};
use cmd_text::{OTHER_SEPARATOR, wants_apostrophe};
use csv::{Writer, WriterBuilder};
use gw_map::{Control, Operates, Outstation, Pulses, Rest, Row, Scale, Settings, Show};
use std::alloc::{AllocError, Global};

/// The list of settings, in CSV: a row for each outstation, point and control, in the order of the file. A list gives their
/// names and what else it says of them.
pub fn list_text(
    alloc: Global,
    settings: &Settings,
    named: Option<&List>,
) -> Result<Vec<u8>, AllocError> {
    match named {
        Some(named) => named_list_text(alloc, settings, named),
        None => {
            let none = List {
                rows: Vec::new(alloc),
            };
            named_list_text(alloc, settings, &none)
        }
    }
}

/// The same, with the names of a list.
fn named_list_text(
    alloc: Global,
    settings: &Settings,
    named: &List,
) -> Result<Vec<u8>, AllocError> {
    let rows = RowsOf::new(alloc, named, settings)?;
    let mut sheet = Sheet {
        alloc,
        // The writer quotes a cell with the mark of its comments, as one with a separator.
        writer: WriterBuilder::new()
            .comment(Some(OTHER_SEPARATOR))
            .from_writer(Vec::new(alloc)),
    };
    sheet.put_all(settings, &rows)?;
    sheet.into_text()
}

/// A list that is written into memory, so that only this can run out.
#[derive(Drop)]
struct Sheet {
    alloc: Global,
    writer: Writer<Vec<u8>>,
}

impl Sheet {
    /// The whole text.
    fn into_text(self) -> Result<Vec<u8>, AllocError> {
        match self.writer.into_inner() {
            Ok(text) => Ok(text),
            Err(_) => Err(AllocError),
        }
    }

    /// Puts the names of the columns, and the rows of settings, with the names of others.
    fn put_all(&mut self, settings: &Settings, named: &RowsOf<'_>) -> Result<(), AllocError> {
        for column in &COLUMNS {
            self.put(column)?;
        }
        self.end_row()?;
        self.put_rows(settings, named)
    }

    /// Puts a cell.
    fn put(&mut self, text: &str) -> Result<(), AllocError> {
        self.writer
            .write_field(text.as_bytes())
            .map_err(|_| AllocError)
    }

    /// Puts cells in which nothing stands.
    fn skip(&mut self, count: usize) -> Result<(), AllocError> {
        for _ in 0..count {
            self.put("")?;
        }
        Ok(())
    }

    /// Puts a cell with a number.
    fn put_number(&mut self, number: u32) -> Result<(), AllocError> {
        let text = format!(in self.alloc; "{number}")?;
        self.put(text.as_str())
    }

    /// Puts a cell with a text of a person, which no spreadsheet takes for a formula.
    fn put_text(&mut self, text: &str) -> Result<(), AllocError> {
        if !wants_apostrophe(text) {
            return self.put(text);
        }
        let text = format!(in self.alloc; "'{text}")?;
        self.put(text.as_str())
    }

    fn end_row(&mut self) -> Result<(), AllocError> {
        self.writer.end_record().map_err(|_| AllocError)
    }

    /// Puts the rows of settings, with the names of others.
    fn put_rows(&mut self, settings: &Settings, named: &RowsOf<'_>) -> Result<(), AllocError> {
        for (position, outstation) in (0u8..).zip(settings.outstations()) {
            self.put_outstation(position, outstation, named.of_outstation(position))?;
        }
        for point in settings.rows() {
            self.put_point(point, named.of_object(point.common_address, point.address))?;
        }
        for control in settings.controls() {
            let row = named.of_object(control.common_address, control.address);
            self.put_control(control, row)?;
        }
        Ok(())
    }

    /// Puts the cells at the beginning of a row: its name, more about it, the outstation and the kind.
    fn put_front(
        &mut self,
        row: Option<&ListRow>,
        outstation: u8,
        kind: &str,
    ) -> Result<(), AllocError> {
        match row {
            Some(row) => {
                self.put_text(row.name.as_str())?;
                self.put_text(row.description.as_str())?;
            }
            None => self.skip(2)?,
        }
        self.put_number(u32::from(outstation))?;
        self.put(kind)
    }

    /// Puts the cells that tell where a point or a control is: the index, the common address and the address.
    fn put_place(
        &mut self,
        index: u16,
        common_address: u16,
        address: u32,
    ) -> Result<(), AllocError> {
        self.put_number(u32::from(index))?;
        self.put_number(u32::from(common_address))?;
        self.put_number(address)
    }

    /// Puts the row of an outstation.
    fn put_outstation(
        &mut self,
        position: u8,
        outstation: &Outstation,
        row: Option<&ListRow>,
    ) -> Result<(), AllocError> {
        self.put_front(row, position, "outstation")?;
        self.put("")?;
        self.put_number(u32::from(outstation.common_address))?;
        self.skip(9)?;
        self.end_row()
    }

    /// Puts the row of a point.
    fn put_point(&mut self, point: &Row, row: Option<&ListRow>) -> Result<(), AllocError> {
        self.put_front(row, point.key.outstation, kind_word(point.key.kind))?;
        self.put_place(point.key.index, point.common_address, point.address)?;
        self.put(show_word(point.show))?;
        if point.show == Show::Scaled {
            self.put_scale(point.scale)?;
        } else {
            self.skip(2)?;
        }
        self.skip(5)?;
        self.end_row()
    }

    /// Puts the cells of a scale.
    fn put_scale(&mut self, scale: Scale) -> Result<(), AllocError> {
        self.put_number(u32::from(scale.num))?;
        self.put_number(u32::from(scale.den))
    }

    /// Puts the row of a control.
    fn put_control(&mut self, control: &Control, row: Option<&ListRow>) -> Result<(), AllocError> {
        self.put_front(row, control.outstation, "control")?;
        self.put_place(control.index, control.common_address, control.address)?;
        self.put(control_word(control.operates))?;
        match control.operates {
            Operates::Setpoint(scale) => self.put_setpoint(control, scale)?,
            Operates::Single(pulses) | Operates::Double(pulses) => self.put_switch(
                control, pulses,
            )?,
        }
        self.end_row()
    }

    /// Puts the last cells of a set point.
    fn put_setpoint(&mut self, control: &Control, scale: Scale) -> Result<(), AllocError> {
        self.put_scale(scale)?;
        self.put_way(control)?;
        self.skip(3)
    }

    /// Puts the last cells of a single or double command.
    fn put_switch(&mut self, control: &Control, pulses: Pulses) -> Result<(), AllocError> {
        self.skip(2)?;
        self.put_way(control)?;
        self.put_pulses(pulses)
    }

    /// Puts the cells that tell how a control is operated.
    fn put_way(&mut self, control: &Control) -> Result<(), AllocError> {
        self.put(if control.select { "yes" } else { "no" })?;
        self.put(mode_word(control.mode))
    }

    /// Puts the cells of pulses.
    fn put_pulses(&mut self, pulses: Pulses) -> Result<(), AllocError> {
        self.put(match pulses.rest {
            Rest::Latch => "latch",
            Rest::Short => "short",
        })?;
        self.put_number(pulses.short_ms)?;
        self.put_number(pulses.long_ms)
    }
}
