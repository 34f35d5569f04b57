//! What is told of many things: the first of them, and how many there are.

use std::alloc::{AllocError, Global};
use std::fmt;

/// How many are told.
pub const MOST_TOLD: usize = 100;

/// Things of which the first hundred are told, and the others counted.
#[derive(Drop)]
pub struct Told<T> {
    first: Vec<T>,
    more: usize,
}

impl<T: Drop> Told<T> {
    /// None.
    pub fn new(alloc: Global) -> Told<T> {
        Told {
            first: Vec::new(alloc),
            more: 0,
        }
    }

    /// Adds one.
    pub fn add(&mut self, one: T) -> Result<(), AllocError> {
        if self.first.len() < MOST_TOLD {
            self.first.push(one)?;
        } else {
            self.more = self.more.saturating_add(1);
        }
        Ok(())
    }

    /// The first of them.
    pub fn first(&self) -> &[T] {
        self.first.as_slice()
    }

    /// How many there are besides.
    pub fn more(&self) -> usize {
        self.more
    }

    /// How many there are.
    pub fn count(&self) -> usize {
        self.first.len().saturating_add(self.more)
    }
}

/// So that an error can hold some.
impl<T> fmt::Debug for Told<T> {
    fn fmt<W: fmt::Write>(&self, f: &mut fmt::Formatter<W>) -> fmt::Result {
        f.write_str("Told { .. }")
    }
}
