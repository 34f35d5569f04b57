//! Workers that are to be woken.

use gw_model::{CLIENTS, OUTSTATIONS};
use gw_steps::Effects;

/// The writers towards outstations, and those of clients, that may have something to do: a bit for each.
#[derive(Clone, Copy)]
pub struct WakeSet {
    outstations: u32,
    clients: u8,
}

impl WakeSet {
    /// No worker.
    pub fn nobody() -> WakeSet {
        WakeSet {
            outstations: 0,
            clients: 0,
        }
    }

    /// All workers.
    pub fn everybody() -> WakeSet {
        WakeSet {
            outstations: u32::MAX,
            clients: u8::MAX,
        }
    }

    /// Those of which a step tells.
    pub fn by(effects: &Effects) -> WakeSet {
        let mut wake_set = WakeSet::nobody();
        for outstation in effects.due_outstations() {
            wake_set.outstations |= outstation_bit(*outstation);
        }
        for (client, is_due) in (0..CLIENTS).zip(effects.due_clients()) {
            if is_due {
                wake_set.clients |= client_bit(client);
            }
        }
        wake_set
    }

    /// These but for the writers of clients that others have already.
    pub fn without_clients_of(self, others: WakeSet) -> WakeSet {
        WakeSet {
            clients: self.clients & !others.clients,
            ..self
        }
    }

    /// These, and the writers of clients that others have.
    pub fn with_clients_of(self, others: WakeSet) -> WakeSet {
        WakeSet {
            clients: self.clients | others.clients,
            ..self
        }
    }

    /// These but for a client's writer.
    pub fn without_client(self, client: u8) -> WakeSet {
        WakeSet {
            clients: self.clients & !client_bit(client),
            ..self
        }
    }

    /// Whether the writer towards an outstation is among them.
    pub fn has_outstation(self, outstation: u8) -> bool {
        self.outstations & outstation_bit(usize::from(outstation)) != 0
    }

    /// Whether the writer of a client is.
    pub fn has_client(self, client: u8) -> bool {
        self.clients & client_bit(client) != 0
    }

    /// Whether nobody is.
    pub fn is_nobody(self) -> bool {
        self.outstations == 0 && self.clients == 0
    }
}

/// The bit of an outstation; none beyond the 32nd.
fn outstation_bit(outstation: usize) -> u32 {
    if outstation < usize::from(OUTSTATIONS) {
        1 << outstation
    } else {
        0
    }
}

/// The bit of a client; none beyond the eighth.
fn client_bit(client: u8) -> u8 {
    if client < CLIENTS { 1 << client } else { 0 }
}
