//! Which rows of a list belong to which points and controls of settings.

use cmd_lists::{List, ListRow, Listed};
use cmd_text::Names;
use gw_map::Settings;
use gw_model::ObjectKey;
use std::alloc::{AllocError, Global};
use std::collections::HashMap;

/// What a list calls the points, the controls and the outstations of settings.
pub fn names_of(alloc: Global, list: &List, settings: &Settings) -> Result<Names, AllocError> {
    let mut names = Names::new(alloc);
    add_names(&mut names, list, settings)?;
    Ok(names)
}

/// Adds the names that a list gives.
fn add_names(names: &mut Names, list: &List, settings: &Settings) -> Result<(), AllocError> {
    for row in &list.rows {
        if !row.name.is_empty() {
            add_name(names, row, settings)?;
        }
    }
    Ok(())
}

/// Adds the name that a row gives, if it belongs to something in the settings.
fn add_name(names: &mut Names, row: &ListRow, settings: &Settings) -> Result<(), AllocError> {
    if let Some(object) = row.object_in(settings) {
        return names.name_object(object, row.name.clone()?);
    }
    match row.listed {
        Listed::Outstation(outstation) if row.common_address_in(settings).is_some() => {
            names.name_outstation(outstation, row.name.clone()?)
        }
        _ => Ok(()),
    }
}

/// The rows of a list by what they belong to in settings.
#[derive(Drop)]
pub(crate) struct RowsOf<'a> {
    list: &'a List,
    /// The positions of rows by their information objects.
    objects: HashMap<ObjectKey, usize>,
    /// Those of rows by the outstations that they name.
    outstations: HashMap<u8, usize>,
}

impl<'a> RowsOf<'a> {
    /// Those of a list.
    pub(crate) fn new(
        alloc: Global,
        list: &'a List,
        settings: &Settings,
    ) -> Result<RowsOf<'a>, AllocError> {
        let mut rows = RowsOf {
            list,
            objects: HashMap::new(alloc),
            outstations: HashMap::new(alloc),
        };
        rows.add_all(settings)?;
        Ok(rows)
    }

    /// Adds all rows of the list.
    fn add_all(&mut self, settings: &Settings) -> Result<(), AllocError> {
        let list = self.list;
        for (position, row) in list.rows.iter().enumerate() {
            self.add(position, row, settings)?;
        }
        Ok(())
    }

    /// Adds the row at a position, if it belongs to something.
    fn add(
        &mut self,
        position: usize,
        row: &ListRow,
        settings: &Settings,
    ) -> Result<(), AllocError> {
        if let Some(object) = row.object_in(settings) {
            self.objects.insert(object, position)?;
        } else if let Listed::Outstation(outstation) = row.listed {
            self.outstations.insert(outstation, position)?;
        }
        Ok(())
    }

    /// The row of the point or the control with a common address and an address.
    pub(crate) fn of_object(&self, common_address: u16, address: u32) -> Option<&'a ListRow> {
        let object = ObjectKey {
            common_address,
            address,
        };
        self.list.rows.get(*self.objects.get(&object)?)
    }

    /// The row that names an outstation.
    pub(crate) fn of_outstation(&self, outstation: u8) -> Option<&'a ListRow> {
        self.list.rows.get(*self.outstations.get(&outstation)?)
    }
}
