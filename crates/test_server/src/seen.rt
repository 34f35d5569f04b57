//! A gate that holds nobody, and counts what the server is about to write.

use run_server::{Effects, Gate, Observer, Place, Pumps, Reply, Step, StepFault, StepKind};
use std::rt::Clock;
use std::sync::atomic::{AtomicU64, Ordering};
use std::thread;
use std::time::Duration;

/// How often a peer looks at the gate, a millisecond apart.
const LOOKS: u16 = 10_000;

/// The actors of a server with one outstation, by their positions.
const OUTSTATION_READER: usize = 0;

const OUTSTATION_WRITER: usize = 1;

const CLIENT_WRITER: usize = 3;

/// What was seen: how often the server was about to write to the outstation and to the client, and had made a step of a
/// response.
#[derive(Drop)]
pub struct Seen {
    pub requests: AtomicU64,
    pub apdus: AtomicU64,
    pub responses: AtomicU64,
}

impl Observer for Seen {
    type Kept = ();

    fn keep(&self, _step: &Step) {}

    fn step(
        &self,
        _kept: (),
        _number: u64,
        _kind: StepKind,
        _reply: &Result<Reply, StepFault>,
        _effects: &Effects,
    ) {}

    fn pumps(&self, _pumps: &Pumps<'_>) {}
}

impl Gate for Seen {
    fn at(&self, actor: usize, place: Place) {
        let times = match (actor, place) {
            (OUTSTATION_WRITER, Place::BeforeWrite) => &self.requests,
            (CLIENT_WRITER, Place::BeforeWrite) => &self.apdus,
            (OUTSTATION_READER, Place::Stepped) => &self.responses,
            _ => return,
        };
        times.fetch_add(1, Ordering::SeqCst);
    }
}

/// Looks until something was seen so often; whether it was in time.
pub fn is_seen<R: Clock>(rt: &R, times: &AtomicU64, wanted: u64) -> bool {
    for _ in 0..LOOKS {
        if times.load(Ordering::SeqCst) >= wanted {
            return true;
        }
        thread::sleep(rt, Duration::from_millis(1));
    }
    false
}
