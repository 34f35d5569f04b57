//! The gateway's ends of connections in memory.
ghost use Rattle.std.specs.Prelude.{◌≡◌, false, None};

use run_ends::{Arrival, Incoming, Outgoing, Unwritten};
use std::alloc::Global;
use std::cell::{Cell, RefCell};

/// What the gateway has written to one peer, and whether its writes fail.
#[derive(Drop)]
pub struct Outbox {
    octets: RefCell<Vec<u8>>,
    is_shut: Cell<bool>,
}

impl Outbox {
    /// Nothing.
    pub fn new(alloc: Global) -> Outbox {
        Outbox {
            octets: RefCell::new(Vec::new(alloc)),
            is_shut: Cell::new(true),
        }
    }

    /// Writes succeed from now on.
    pub fn open(&self) {
        self.is_shut.set(false);
        self.forget();
    }

    /// Writes fail from now on.
    pub fn shut(&self) {
        self.is_shut.set(true);
    }

    /// What was written is forgotten.
    pub fn forget(&self) {
        if let Ok(mut octets) = self.octets.try_borrow_mut() {
            octets.clear();
        }
    }

    /// Adds octets; whether they were taken.
    fn add(&self, octets: &[u8]) -> bool {
        if self.is_shut.get() {
            return false;
        }
        match self.octets.try_borrow_mut() {
            Ok(mut all) => all.extend_from_slice(octets).is_ok(),
            Err(_) => false,
        }
    }

    /// Takes what was written.
    pub fn take(&self, alloc: Global) -> Vec<u8> {
        match self.octets.try_replace(Vec::new(alloc)) {
            Ok(octets) => octets,
            Err(nothing) => nothing,
        }
    }
}

/// The end to which the gateway writes.
#[derive(Drop)]
pub struct Outlet<'a> {
    outbox: &'a Outbox,
    has_failed: bool,
}

impl<'a> Outlet<'a> {
    /// One to which nothing was written.
    pub fn new(outbox: &'a Outbox) -> Outlet<'a>
        ensures { result.has_failed ≡ false }
    {
        Outlet {
            outbox,
            has_failed: false,
        }
    }
}

impl<'a> Outgoing for Outlet<'a> {
    ghost contents = { λ _. None };

    ghost has_failed = { λ outlet. outlet.has_failed };

    fn hand(&mut self, octets: &[u8]) -> Result<(), Unwritten> {
        if self.outbox.add(octets) {
            Ok(())
        } else {
            self.has_failed = true;
            Err(Unwritten)
        }
    }
}

/// What comes to a reader in one of its turns.
#[derive(Clone, Copy)]
pub enum Coming<'a> {
    /// Octets.
    Octets(&'a [u8]),
    /// Nothing yet.
    Later,
    /// Nothing more.
    End,
    /// A fault.
    Fault,
}

/// The end from which the gateway reads in one turn.
#[derive(Drop)]
pub struct Inlet<'a> {
    coming: Coming<'a>,
    has_failed: bool,
}

impl<'a> Inlet<'a> {
    /// One at which this comes.
    pub fn new(coming: Coming<'a>) -> Inlet<'a> {
        Inlet {
            coming,
            has_failed: false,
        }
    }
}

impl<'a> Incoming for Inlet<'a> {
    ghost given = { λ _. None };

    ghost has_failed = { λ inlet. inlet.has_failed };

    fn receive(&mut self, buffer: &mut [u8]) -> Arrival {
        let arrival = match self.coming {
            Coming::Octets(octets) => {
                let count = octets.len().min(buffer.len());
                buffer[..count].copy_from_slice(&octets[..count]);
                Arrival::Octets(count)
            }
            Coming::Later => Arrival::Later,
            Coming::End => Arrival::End,
            Coming::Fault => Arrival::Fault,
        };
        self.has_failed = self.has_failed || arrival.is_fault();
        arrival
    }
}
