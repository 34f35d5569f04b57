//! What is told of connections that begin and end.

use crate::looks::ANY_TIME;
use crate::reporter::Reporter;
use run_clock::Clock;
use run_journal::{Cause, Failure, JournalEvent};
use std::net::SocketAddr;
use std::sync::Wait;

impl<'a, R: Wait, C: Clock> Reporter<'a, R, C> {
    /// Tells that no connection to an outstation could be made, and why, unless that was told not long ago.
    pub fn outstation_unreachable(&self, outstation: u8, cause: Failure) {
        let Some(record) = self.peers.outstation(outstation) else {
            return;
        };
        let wall = self.clock.wall();
        let told = record.figures.lock(self.rt).note_unreachable(wall, cause);
        if let Some(left_out) = told {
            self.tell(JournalEvent::OutstationUnreachable {
                outstation,
                cause,
                left_out,
            });
        }
    }

    /// Notes that a connection to an outstation stands, and tells of it, unless such connections end again and again.
    pub fn outstation_connected(&self, outstation: u8) {
        let Some(record) = self.peers.outstation(outstation) else {
            return;
        };
        let wall = self.clock.wall();
        let is_told = record.figures.lock(self.rt).note_connection(wall);
        if is_told {
            self.tell(JournalEvent::OutstationConnected { outstation });
        }
    }

    /// Notes that the connection to an outstation has ended, and tells of it, likewise.
    pub fn outstation_lost(&self, outstation: u8, cause: Cause) {
        let Some(record) = self.peers.outstation(outstation) else {
            return;
        };
        let wall = self.clock.wall();
        let told = record.figures.lock(self.rt).note_loss(wall, cause);
        if let Some(loss) = told {
            self.tell(JournalEvent::OutstationLost { outstation, loss });
        }
    }

    /// Notes that a client is connected, and tells of it, unless connections from its address end again and again.
    pub fn client_connected(&self, client: u8, address: SocketAddr) {
        let Some(record) = self.peers.client(client) else {
            return;
        };
        let wall = self.clock.wall();
        let is_told = self.peers.callers.lock(self.rt).begin(wall, address);
        record
            .figures
            .lock(self.rt)
            .note_connection(address, wall, is_told);
        if is_told {
            self.tell(JournalEvent::ClientConnected { client, address });
        }
    }

    /// Notes that the connection of a client has ended, and tells of it, likewise, behind how many observations were dropped
    /// for it. So many were dropped at each slot by now.
    pub fn client_lost(&self, client: u8, address: SocketAddr, cause: Cause, dropped: &[u64]) {
        let Some(record) = self.peers.client(client) else {
            return;
        };
        if let Some(total) = dropped.get(usize::from(client)) {
            self.tell_dropped(record, client, *total, ANY_TIME);
        }
        let wall = self.clock.wall();
        let was_told = record.figures.lock(self.rt).note_end(&cause);
        record.free(self.rt);
        self.tell_end(client, address, cause, wall, was_told);
    }

    /// Nobody has the slot of a client any more, who wasn't told as connected.
    pub fn forget_client(&self, client: u8) {
        if let Some(record) = self.peers.client(client) {
            record.free(self.rt);
        }
    }

    /// Tells that the connection of a client has ended, whose beginning was told or wasn't, unless it isn't to be told now.
    fn tell_end(&self, client: u8, address: SocketAddr, cause: Cause, wall: u64, was_told: bool) {
        let told = self
            .peers
            .callers
            .lock(self.rt)
            .end(wall, client, address, cause, was_told);
        if let Some(loss) = told {
            self.tell(JournalEvent::ClientLost {
                client,
                address,
                loss,
            });
        }
    }
}
