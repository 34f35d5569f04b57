//! The bells of the workers that write.

use crate::wake_set::WakeSet;
use gw_model::{CLIENTS, Memory, OUTSTATIONS};
use run_clock::Bell;
use std::alloc::Global;

/// A bell for each writer towards an outstation, and for that of each client.
#[derive(Drop)]
pub(crate) struct Bells {
    outstations: Vec<Bell>,
    clients: Vec<Bell>,
}

impl Bells {
    /// None of them was rung.
    pub fn new(alloc: Global) -> Result<Bells, Memory> {
        let outstations = unrung(alloc, OUTSTATIONS)?;
        let clients = unrung(alloc, CLIENTS)?;
        Ok(Bells {
            outstations,
            clients,
        })
    }

    /// Wakes workers.
    pub fn ring(&self, wake_set: WakeSet) {
        if wake_set.is_nobody() {
            return;
        }
        for (outstation, bell) in (0..OUTSTATIONS).zip(&self.outstations) {
            if wake_set.has_outstation(outstation) {
                bell.ring();
            }
        }
        for (client, bell) in (0..CLIENTS).zip(&self.clients) {
            if wake_set.has_client(client) {
                bell.ring();
            }
        }
    }

    /// That of the writer towards an outstation; none beyond the 32nd.
    pub fn of_outstation(&self, outstation: u8) -> Option<&Bell> {
        self.outstations.get(usize::from(outstation))
    }

    /// That of a client's writer; none beyond the eighth.
    pub fn of_client(&self, client: u8) -> Option<&Bell> {
        self.clients.get(usize::from(client))
    }
}

/// So many bells that were never rung.
fn unrung(alloc: Global, count: u8) -> Result<Vec<Bell>, Memory> {
    let mut bells = Vec::with_capacity(alloc, usize::from(count))?;
    for _ in 0..count {
        bells.push(Bell::new())?;
    }
    Ok(bells)
}
