//! All connections.

use crate::connection::{Connection, Wire};
use sim_peers::Log;
use std::alloc::Global;
use std::rc::Rc;

/// How many handles of a connection there are where the gateway has none: the registry's, and that of its centre.
const OTHERS: usize = 2;

/// A connection, and how often it was told that it was shut.
#[derive(Drop)]
struct Entry {
    connection: Rc<Connection>,
    told: u64,
}

/// All connections of which anybody has a handle.
#[derive(Drop)]
pub struct Registry {
    alloc: Global,
    entries: Vec<Entry>,
    count: u64,
}

impl Registry {
    /// There was none.
    pub fn new(alloc: Global) -> Registry {
        Registry {
            alloc,
            entries: Vec::new(alloc),
            count: 0,
        }
    }

    /// A new connection: the gateway's handle of it, and its centre's; none where there is no memory.
    pub fn open(&mut self) -> Option<(Wire, Rc<Connection>)> {
        self.forget();
        let number = self.count;
        let connection = Rc::new(self.alloc, Connection::new(self.alloc, number)).ok()?;
        let own = connection.clone().ok()?;
        let wire = Wire::of(&connection)?;
        self.entries
            .push(Entry {
                connection: own,
                told: 0,
            })
            .ok()?;
        self.count = number.saturating_add(1);
        Some((wire, connection))
    }

    /// Connections of which nobody else has a handle are forgotten.
    fn forget(&mut self) {
        for position in (0..self.entries.len()).rev() {
            let is_spare = match self.entries.get(position) {
                Some(entry) => Rc::strong_count(&entry.connection) < OTHERS,
                None => false,
            };
            if is_spare && position < self.entries.len() {
                let _ = self.entries.remove(position);
            }
        }
    }

    /// Tells which connections were shut since that was told last.
    pub fn tell_shut(&mut self, log: &Log<'_>) {
        for entry in self.entries.iter_mut() {
            if entry.connection.shuts() > entry.told {
                entry.told = entry.connection.shuts();
                log.add("shut", &[entry.connection.number]);
            }
        }
    }

    /// All centres, also those of which nobody knows any more, end their connections.
    pub fn leave_all(&self) {
        for entry in &self.entries {
            entry.connection.leave();
        }
    }

    /// Of how many connections somebody else has a handle.
    pub fn count_handled(&self) -> u64 {
        let mut held: u64 = 0;
        for entry in &self.entries {
            if Rc::strong_count(&entry.connection) >= OTHERS {
                held = held.saturating_add(1);
            }
        }
        held
    }
}

/// Whether the gateway has no handle of a connection any more, or ended or shut it.
pub fn is_closed(connection: &Rc<Connection>) -> bool {
    connection.is_down() || Rc::strong_count(connection) <= OTHERS
}
