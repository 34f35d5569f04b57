//! A test of the order in which the server tells: whoever tells what follows from a step waits until that step was told.

use run_peers::{Sequence, StepSource};
use std::process::Abort;
use std::rt::Clock as Sleeps;
use std::sync::Wait;
use std::sync::atomic::{AtomicBool, Ordering};
use std::thread::{self, Threads};
use std::time::Duration;

/// How many milliseconds a step is told late.
const LATE_MS: u64 = 50;

/// Each source of steps.
const SOURCES: [StepSource; 4] = [
    StepSource::Client(0),
    StepSource::Outstation(0),
    StepSource::Loss(0),
    StepSource::Clock,
];

#[test]
fn sequence(rt: HostRuntime) {
    for source in SOURCES {
        wait_for(&rt, source);
    }
}

/// One thread waits for what is under way, while another tells it late.
fn wait_for<R: Threads + Wait + Sleeps + Abort + AllocGlobal + Sync>(rt: &R, source: StepSource) {
    let sequence = Sequence::new(rt.alloc(), 1, 1).expect(rt, "memory");
    let has_settled = AtomicBool::new(false);
    sequence.begin(rt, source);
    let are_right = thread::map_indices(
        rt,
        rt.alloc(),
        2,
        &|part| match part {
            0 => settles(rt, &sequence, &has_settled),
            _ => tells_late(rt, &sequence, source, &has_settled),
        },
    )
    .expect(rt, "memory");
    assert_eq!(rt; are_right.as_slice(), [true; 2].as_slice());
}

/// Waits until all was told.
fn settles<R: Wait>(rt: &R, sequence: &Sequence, has_settled: &AtomicBool) -> bool {
    sequence.settle(rt);
    has_settled.store(true, Ordering::SeqCst);
    true
}

/// Tells the step, for which the other one has waited.
fn tells_late<R: Wait + Sleeps>(
    rt: &R,
    sequence: &Sequence,
    source: StepSource,
    has_settled: &AtomicBool,
) -> bool {
    thread::sleep(rt, Duration::from_millis(LATE_MS));
    let has_waited = !has_settled.load(Ordering::SeqCst);
    sequence.end(rt, source);
    has_waited
}
