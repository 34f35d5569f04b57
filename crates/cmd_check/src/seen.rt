//! Sources and information objects that entries have already.

use crate::faults::{EntryPlace, FaultList, FileFault};
use cmd_profile::{Fault, ObjectKey, PointKey};
use std::alloc::{AllocError, Global};
use std::collections::HashMap;

/// Which entry is the first that has a source, or an information object, and which others have it too.
#[derive(Drop)]
pub(crate) struct Seen {
    sources: HashMap<PointKey, EntryPlace>,
    objects: HashMap<ObjectKey, EntryPlace>,
    double_sources: FaultList,
    double_objects: FaultList,
}

impl Seen {
    /// Nothing was seen yet.
    pub(crate) fn new(alloc: Global) -> Seen {
        Seen {
            sources: HashMap::new(alloc),
            objects: HashMap::new(alloc),
            double_sources: FaultList::new(alloc),
            double_objects: FaultList::new(alloc),
        }
    }

    /// Notes that an entry has a source.
    pub(crate) fn note_source(
        &mut self,
        entry: EntryPlace,
        source: PointKey,
    ) -> Result<(), AllocError> {
        if let Some(first) = self.sources.get(&source) {
            return self.double_sources.add(FileFault {
                fault: Fault::DoubleSource,
                place: entry.key("index"),
                first: Some(*first),
            });
        }
        self.sources.insert(source, entry)?;
        Ok(())
    }

    /// Notes that an entry has an information object.
    pub(crate) fn note_object(
        &mut self,
        entry: EntryPlace,
        object: ObjectKey,
    ) -> Result<(), AllocError> {
        if let Some(first) = self.objects.get(&object) {
            return self.double_objects.add(FileFault {
                fault: Fault::DoubleAddress,
                place: entry.key("address"),
                first: Some(*first),
            });
        }
        self.objects.insert(object, entry)?;
        Ok(())
    }

    /// The entries whose source another one in front has.
    pub(crate) fn double_sources(&self) -> &FaultList {
        &self.double_sources
    }

    /// The entries whose information object another one in front has.
    pub(crate) fn double_objects(&self) -> &FaultList {
        &self.double_objects
    }
}
