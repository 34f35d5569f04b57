//! Addresses that aren't allowed.

use run_journal::Throttle;
use run_peers::AddressRows;
use std::alloc::Global;
use std::net::IpAddr;

/// The milliseconds from one line about an address that isn't allowed to the next.
const REFUSAL_MS: u64 = 60_000;

/// How many such addresses are kept in mind.
const MOST_REFUSED: usize = 64;

/// The addresses that aren't allowed and connected last.
#[derive(Drop)]
pub struct Refusals {
    refused: AddressRows<Throttle>,
}

impl Refusals {
    /// Of nobody.
    pub fn new(alloc: Global) -> Refusals {
        Refusals {
            refused: AddressRows::new(alloc),
        }
    }

    /// Somebody connected from an address that isn't allowed. Where that may be told now, at most once a minute, how
    /// many more did since it was told last.
    pub fn ask(&mut self, address: IpAddr, wall: u64) -> Option<u64> {
        let position = self.position_of(address)?;
        self.refused.get_mut(position)?.ask(wall)
    }

    /// Where an address is kept, from now on if it wasn't; nowhere if there is no memory for it.
    fn position_of(&mut self, address: IpAddr) -> Option<usize> {
        let position = self.refused.position(address);
        if position.is_some() {
            return position;
        }
        if self.refused.len() >= MOST_REFUSED {
            self.refused.forget_first();
        }
        self.refused.push(address, Throttle::new(REFUSAL_MS))
    }
}
