//! Which writers needn't be rung for.

use crate::wake_set::WakeSet;
use gw_steps::{Reply, StepFault, StepKind};

/// The writers of clients that are awake: each that was rung for and hasn't been told since that nothing is due. It
/// asks again before it sleeps, so whoever steps meanwhile needn't ring.
#[derive(Clone, Copy)]
pub struct AwakeWriters {
    writers: WakeSet,
}

impl AwakeWriters {
    /// All sleep.
    pub fn nobody() -> AwakeWriters {
        AwakeWriters {
            writers: WakeSet::nobody(),
        }
    }

    /// A writer that is told of no APDU may sleep now.
    pub fn note_step(&mut self, kind: StepKind, reply: &Result<Reply, StepFault>) {
        match (kind, reply) {
            (StepKind::Pump(_), Ok(Reply::Apdu(_))) => {}
            (StepKind::Pump(client), _) => self.writers = self.writers.without_client(client),
            _ => {}
        }
    }

    /// Those of the workers that may have something to do for whom the bell has to ring; they are awake then.
    pub fn wake(&mut self, due: WakeSet) -> WakeSet {
        let asleep = due.without_clients_of(self.writers);
        self.writers = self.writers.with_clients_of(due);
        asleep
    }
}
