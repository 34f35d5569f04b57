//! Where the server's threads tell what happens.

use crate::peers::Peers;
use run_clock::Clock;
use run_journal::{Journal, JournalEvent, Noticed};
use std::alloc::Global;
use std::sync::Wait;

/// What all of the server's threads work with: the system, its clock, what is known of each peer, and the journal.
#[derive(Drop)]
pub struct Reporter<'a, R, C> {
    pub alloc: Global,
    pub rt: &'a R,
    pub clock: &'a C,
    pub peers: &'a Peers,
    pub journal: &'a Journal,
}

impl<'a, R: Wait, C: Clock> Reporter<'a, R, C> {
    /// Tells an operator what happened just now.
    pub fn tell(&self, event: JournalEvent) {
        self.journal.tell(self.rt, self.clock.wall(), event);
    }

    /// Tells an operator what was noticed of an outstation.
    pub fn tell_noticed(&self, outstation: u8, noticed: Noticed) {
        if noticed.restarted {
            self.tell(JournalEvent::OutstationRestarted { outstation });
        }
        if noticed.overflowed {
            self.tell(JournalEvent::EventsOverflowed { outstation });
        }
        if noticed.clock_not_set {
            self.tell(JournalEvent::ClockNotSet { outstation });
        }
    }
}
