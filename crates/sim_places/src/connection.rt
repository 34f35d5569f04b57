//! A connection, and the gateway's handles of it.

use run_admission::ClientStream;
use std::alloc::Global;
use std::cell::{Cell, RefCell};
use std::rc::Rc;

/// What a centre sends.
#[derive(Clone, Copy)]
pub enum Apdu {
    StartAct,
    StopAct,
    TestCon,
    /// An S format.
    Acknowledgement,
}

/// A connection, as both of its ends and the network between know it.
#[derive(Drop)]
pub struct Connection {
    /// How many there were before.
    pub number: u64,
    /// What its centre sent and the gateway hasn't read.
    unread: RefCell<Vec<Apdu>>,
    /// Its centre ended it.
    has_left: Cell<bool>,
    /// The gateway's workers ended it.
    has_ended: Cell<bool>,
    /// How often it was shut by others than its workers.
    shuts: Cell<u64>,
    /// A TESTFR act came that its centre hasn't read.
    is_tested: Cell<bool>,
}

impl Connection {
    /// A new one.
    pub fn new(alloc: Global, number: u64) -> Connection {
        Connection {
            number,
            unread: RefCell::new(Vec::new(alloc)),
            has_left: Cell::new(false),
            has_ended: Cell::new(false),
            shuts: Cell::new(0),
            is_tested: Cell::new(false),
        }
    }

    /// Its centre sends an APDU.
    pub fn send(&self, apdu: Apdu) {
        if let Ok(mut unread) = self.unread.try_borrow_mut() {
            let _ = unread.push(apdu);
        }
    }

    /// Whether an APDU is there to be read.
    pub fn has_unread(&self) -> bool {
        match self.unread.try_borrow() {
            Ok(unread) => !unread.is_empty(),
            Err(_) => false,
        }
    }

    /// Reads an APDU.
    pub fn read(&self) -> Option<Apdu> {
        match self.unread.try_borrow_mut() {
            Ok(mut unread) => {
                if unread.is_empty() {
                    None
                } else {
                    Some(unread.remove(0))
                }
            }
            Err(_) => None,
        }
    }

    /// Its centre ends it.
    pub fn leave(&self) {
        self.has_left.set(true);
    }

    /// The gateway's workers end it.
    pub fn end(&self) {
        self.has_ended.set(true);
    }

    /// Whether the gateway's workers ended it, or it was shut.
    pub fn is_down(&self) -> bool {
        self.has_ended.get() || self.shuts.get() > 0
    }

    /// How often it was shut.
    pub fn shuts(&self) -> u64 {
        self.shuts.get()
    }

    /// Whether a reader finds its end: at once if it was shut, else behind what was sent.
    pub fn is_at_end(&self) -> bool {
        self.shuts.get() > 0 || (self.has_left.get() && !self.has_unread())
    }

    /// A TESTFR act comes to its centre.
    pub fn test(&self) {
        self.is_tested.set(true);
    }

    /// Whether one has come and wasn't read.
    pub fn is_tested(&self) -> bool {
        self.is_tested.get()
    }

    /// Its centre reads it.
    pub fn forget_test(&self) {
        self.is_tested.set(false);
    }
}

/// A handle of a connection.
#[derive(Drop)]
pub struct Wire {
    pub connection: Rc<Connection>,
}

impl Wire {
    /// A second handle, where there is memory.
    pub fn of(connection: &Rc<Connection>) -> Option<Wire> {
        let connection = connection.clone().ok()?;
        Some(Wire { connection })
    }
}

impl ClientStream for Wire {
    fn handle(&self) -> Option<Wire> {
        Wire::of(&self.connection)
    }

    fn shut(&self) {
        let shuts = self.connection.shuts.get();
        self.connection.shuts.set(shuts.saturating_add(1));
    }
}
