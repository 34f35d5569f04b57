//! Lists of what is wrong with a settings file.

use cmd_profile::{Fault, KeyName, KeyPlace, Section};
use std::alloc::{AllocError, Global};

/// How many faults are told.
pub(crate) const MOST_TOLD: usize = 100;

/// An entry of a section, by its position.
#[derive(Clone, Copy)]
pub(crate) struct EntryPlace {
    pub(crate) section: Section,
    pub(crate) position: usize,
}

impl EntryPlace {
    /// A key of it that its section knows.
    pub(crate) fn key(self, name: &'static str) -> KeyPlace {
        KeyPlace {
            section: self.section,
            position: self.position,
            key: KeyName::Known(name),
        }
    }
}

/// Something that is wrong with a settings file.
#[derive(Drop)]
pub(crate) struct FileFault {
    pub(crate) fault: Fault,
    pub(crate) place: KeyPlace,
    /// The entry in front that has the same already, if that is what is wrong.
    pub(crate) first: Option<EntryPlace>,
}

/// Faults, of which the first hundred are kept and the others counted.
#[derive(Drop)]
pub(crate) struct FaultList {
    kept: Vec<FileFault>,
    count: usize,
}

impl FaultList {
    /// No faults.
    pub(crate) fn new(alloc: Global) -> FaultList {
        FaultList {
            kept: Vec::new(alloc),
            count: 0,
        }
    }

    /// Adds a fault.
    pub(crate) fn add(&mut self, fault: FileFault) -> Result<(), AllocError> {
        if self.kept.len() < MOST_TOLD {
            self.kept.push(fault)?;
        }
        self.count = self.count.saturating_add(1);
        Ok(())
    }

    /// Adds that something is wrong at a place.
    pub(crate) fn add_at(&mut self, fault: Fault, place: KeyPlace) -> Result<(), AllocError> {
        self.add(FileFault {
            fault,
            place,
            first: None,
        })
    }

    /// The first of them, at most so many, and no more than are kept.
    pub(crate) fn front(&self, most: usize) -> &[FileFault] {
        let kept = self.kept.as_slice();
        kept.get(..most).unwrap_or(kept)
    }

    /// How many there are.
    pub(crate) fn count(&self) -> usize {
        self.count
    }
}
