//! The order of the steps' numbers.
ghost use Rattle.std.specs.Prelude.{◌<◌, IfSome};
ghost use Rattle.std.specs.BTreeMap.{btree_map_len};

use crate::lines::Lines;
use gw_model::Memory;
use std::alloc::Global;
use std::collections::BTreeMap;

/// Gives lines in the order of their steps' numbers, from 1, and keeps those that came early.
#[derive(Drop)]
pub struct Sorter {
    next: u64,
    early: BTreeMap<u64, Lines>,
}

impl Sorter {
    /// Nothing came.
    pub fn new(alloc: Global) -> Sorter {
        Sorter {
            next: 1,
            early: BTreeMap::new(alloc),
        }
    }

    /// Takes lines, in any order.
    pub fn add(&mut self, lines: Lines) -> Result<(), Memory> {
        self.early.insert(lines.first, lines)?;
        Ok(())
    }

    /// Gives the lines whose turn it is, if they came.
    pub fn next(&mut self) -> Option<Lines>
        ensures { IfSome result (λ _. btree_map_len self.new.early < btree_map_len self.old.early) }
    {
        let lines = self.early.remove(&self.next)?;
        self.next = self.next.saturating_add(lines.count);
        Some(lines)
    }
}
