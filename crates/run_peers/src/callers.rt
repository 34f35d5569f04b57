//! What is told of the clients of each address.

use crate::address_rows::AddressRows;
use run_journal::{Cause, Loss, Reconnects};
use std::alloc::Global;
use std::net::SocketAddr;

/// Of how many addresses it is known at most what was told. Of all others together it is known as of one.
const MOST_CALLERS: usize = 32;

/// What is told of the clients of an address.
#[derive(Drop)]
struct Caller {
    reconnects: Reconnects,
    /// How many connections stand.
    standing: u64,
    /// The last client whose connection ended: its slot, and where it connected from.
    last: Option<(u8, SocketAddr)>,
}

impl Caller {
    /// Of an address that nobody connected from yet.
    fn new(reconnects: Reconnects) -> Caller {
        Caller {
            reconnects,
            standing: 0,
            last: None,
        }
    }

    /// Whether nothing is lost where it is forgotten.
    fn is_spare(&self) -> bool {
        self.standing == 0 && self.reconnects.is_calm()
    }

    /// The connections that ended and are due to be told.
    fn due(&mut self, wall: u64) -> Option<CallerLoss> {
        let loss = self.reconnects.due(wall)?;
        let (client, address) = self.last?;
        Some(CallerLoss {
            client,
            address,
            loss,
        })
    }
}

/// The end of a client's connection, as it is told: the slot, and where the client connected from.
#[derive(Clone, Copy)]
pub struct CallerLoss {
    pub client: u8,
    pub address: SocketAddr,
    pub loss: Loss,
}

/// What is told of the clients of each address, whose ports make no difference. Those from which connections stand, or
/// ended lately, keep their rows.
#[derive(Drop)]
pub struct Callers {
    calm_ms: u64,
    known: AddressRows<Caller>,
    others: Caller,
}

impl Callers {
    /// Nobody has connected; an address is calm where no connection from it has ended for so many milliseconds.
    pub fn new(alloc: Global, calm_ms: u64) -> Callers {
        Callers {
            calm_ms,
            known: AddressRows::new(alloc),
            others: Caller::new(Reconnects::of_several(calm_ms)),
        }
    }

    /// A connection of a client begins; whether that is told at once.
    pub fn begin(&mut self, wall: u64, address: SocketAddr) -> bool {
        let caller = self.caller(address);
        caller.standing = caller.standing.saturating_add(1);
        caller.reconnects.begin(wall)
    }

    /// A connection whose beginning wasn't told stands since a time; whether it is told now.
    pub fn stands(&mut self, wall: u64, address: SocketAddr, since: u64) -> bool {
        self.caller(address).reconnects.stands(wall, since)
    }

    /// A connection of the client at a slot has ended, whose beginning was told or wasn't. What is told of that at once,
    /// if something is.
    pub fn end(
        &mut self,
        wall: u64,
        client: u8,
        address: SocketAddr,
        cause: Cause,
        was_told: bool,
    ) -> Option<Loss> {
        let caller = self.caller(address);
        caller.standing = caller.standing.saturating_sub(1);
        caller.last = Some((client, address));
        caller.reconnects.end(wall, cause, was_told)
    }

    /// How many times `due` has to be asked for all.
    pub fn len(&self) -> usize {
        self.known.len().saturating_add(1)
    }

    /// What is due to be told of the clients of an address, by its position.
    pub fn due(&mut self, wall: u64, position: usize) -> Option<CallerLoss> {
        match self.known.get_mut(position) {
            Some(caller) => caller.due(wall),
            None => self.others.due(wall),
        }
    }

    /// What is told of the clients of an address.
    fn caller(&mut self, address: SocketAddr) -> &mut Caller {
        let Some(position) = self.position_of(address) else {
            return &mut self.others;
        };
        match self.known.get_mut(position) {
            Some(caller) => caller,
            None => &mut self.others,
        }
    }

    /// Where an address is known, from now on if it wasn't, in the place of one that is spare if need be; nowhere where
    /// there is none.
    fn position_of(&mut self, address: SocketAddr) -> Option<usize> {
        let address = address.ip();
        let position = self.known.position(address);
        if position.is_some() {
            return position;
        }
        if self.known.len() < MOST_CALLERS {
            let caller = self.nobody();
            return self.known.push(address, caller);
        }
        let position = self.spare_position()?;
        let caller = self.nobody();
        self.known.replace(position, address, caller);
        Some(position)
    }

    /// An address that nobody connected from yet.
    fn nobody(&self) -> Caller {
        Caller::new(Reconnects::new(self.calm_ms))
    }

    /// Where the first address is known that is spare.
    fn spare_position(&self) -> Option<usize> {
        for position in 0..self.known.len() {
            match self.known.get(position) {
                Some(caller) if caller.is_spare() => return Some(position),
                _ => {}
            }
        }
        None
    }
}
