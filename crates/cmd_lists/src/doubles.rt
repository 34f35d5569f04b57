//! What a list may have once.

use crate::list::Listed;
use gw_model::{ObjectKey, PointKey};
use std::alloc::{AllocError, Global};
use std::collections::HashMap;

/// The rows that were read, by what no other row may have.
#[derive(Drop)]
pub(crate) struct RowsBefore {
    sources: HashMap<PointKey, usize>,
    objects: HashMap<ObjectKey, usize>,
    outstations: HashMap<u8, usize>,
}

impl RowsBefore {
    /// None.
    pub(crate) fn new(alloc: Global) -> RowsBefore {
        RowsBefore {
            sources: HashMap::new(alloc),
            objects: HashMap::new(alloc),
            outstations: HashMap::new(alloc),
        }
    }

    /// The last row with the same outstation of a row that names one, or the same point; this row is the last one now.
    pub(crate) fn same_source(
        &mut self,
        listed: Listed,
        row: usize,
    ) -> Result<Option<usize>, AllocError> {
        match listed {
            Listed::Outstation(outstation) => Ok(self.outstations.insert(outstation, row)?),
            Listed::Point(key, _) => Ok(self.sources.insert(key, row)?),
            Listed::Control { .. } => Ok(None),
        }
    }

    /// The last row with the same information object; this row is the last one now.
    pub(crate) fn same_object(
        &mut self,
        object: ObjectKey,
        row: usize,
    ) -> Result<Option<usize>, AllocError> {
        Ok(self.objects.insert(object, row)?)
    }
}
