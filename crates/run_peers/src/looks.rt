//! What is told of peers once in a while.

use crate::callers::CallerLoss;
use crate::peers::ClientRecord;
use crate::reporter::Reporter;
use run_clock::Clock;
use run_journal::{DueNotes, JournalEvent, Refused};
use std::sync::Wait;

/// A time at which whatever waits for its time is due.
pub(crate) const ANY_TIME: u64 = u64::MAX;

impl<'a, R: Wait, C: Clock> Reporter<'a, R, C> {
    /// Tells what is due of the outstations.
    pub fn look_at_outstations(&self, wall: u64) {
        for (outstation, record) in (0u8..).zip(self.peers.outstations()) {
            self.tell_of_outstation(outstation, record.due(self.rt, wall));
        }
    }

    /// Tells what still waits for its time, and that the server has stopped; nothing is told any more.
    pub fn close(&self) {
        self.look_at_outstations(ANY_TIME);
        self.look_at_callers(ANY_TIME);
        self.tell(JournalEvent::Stopped);
        self.journal.close(self.rt);
    }

    /// Tells what is due of an outstation.
    fn tell_of_outstation(&self, outstation: u8, due: DueNotes) {
        if let Some(loss) = due.lost {
            self.tell(JournalEvent::OutstationLost { outstation, loss });
        }
        if due.connected {
            self.tell(JournalEvent::OutstationConnected { outstation });
        }
        self.tell_noticed(outstation, due.noticed);
        if let Some(count) = due.unanswered {
            self.tell(JournalEvent::Unanswered { outstation, count });
        }
        if let Some(count) = due.skipped {
            self.tell(JournalEvent::OctetsSkipped { outstation, count });
        }
        if let Some(frames) = due.strayed {
            self.tell(JournalEvent::FramesStrayed { outstation, frames });
        }
        if let Some(count) = due.passed_over {
            self.tell(JournalEvent::ObjectsPassedOver { outstation, count });
        }
        if let Some(Refused { fault, left_out }) = due.refused {
            self.tell(JournalEvent::FragmentRefused {
                outstation,
                fault,
                left_out,
            });
        }
    }

    /// Tells which connections of clients have ended, where that wasn't told and is due.
    pub fn look_at_callers(&self, wall: u64) {
        let count = self.peers.callers.lock(self.rt).len();
        for position in 0..count {
            let due = self.peers.callers.lock(self.rt).due(wall, position);
            if let Some(
                CallerLoss {
                    client,
                    address,
                    loss,
                },
            ) = due
            {
                self.tell(JournalEvent::ClientLost {
                    client,
                    address,
                    loss,
                });
            }
        }
    }

    /// Tells what is due of the clients at their slots: that they stand, what they sent of unknown types, and how many
    /// observations were dropped for them. So many were dropped at each slot by now.
    pub fn look_at_clients(&self, dropped: &[u64], wall: u64) {
        for (client, record) in (0u8..).zip(self.peers.clients()) {
            self.tell_standing(record, client, wall);
            self.tell_unknown(record, client, wall);
            if let Some(total) = dropped.get(usize::from(client)) {
                self.tell_dropped(record, client, *total, wall);
                record.look(self.rt, *total);
            }
        }
    }

    /// Tells that a client is connected, and whether it transfers data, where that wasn't told and is due.
    fn tell_standing(&self, record: &ClientRecord, client: u8, wall: u64) {
        // Its end is told behind that, since the lock is taken for that too.
        let mut figures = record.figures.lock(self.rt);
        let Some((address, since)) = figures.untold() else {
            return;
        };
        let mut callers = self.peers.callers.lock(self.rt);
        if !callers.stands(wall, address, since) {
            return;
        }
        figures.note_told();
        self.tell(JournalEvent::ClientConnected { client, address });
        if figures.transfers_since.is_some() {
            self.tell(JournalEvent::TransferStarted { client, address });
        }
    }

    /// Tells what a client sent of unknown types, where that is due.
    fn tell_unknown(&self, record: &ClientRecord, client: u8, wall: u64) {
        if let Some((address, asdus)) = record.unknown_due(self.rt, wall) {
            self.tell(JournalEvent::UnknownTypes {
                client,
                address,
                asdus,
            });
        }
    }

    /// Tells how many observations were dropped for a client, where that is due. So many were dropped at its slot by now.
    pub(crate) fn tell_dropped(&self, record: &ClientRecord, client: u8, total: u64, wall: u64) {
        if let Some((address, count)) = record.note_drops(self.rt, wall, total) {
            self.tell(JournalEvent::NewsDropped {
                client,
                address,
                count,
            });
        }
    }
}
