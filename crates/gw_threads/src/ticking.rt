//! The clock's ticks.
ghost use Rattle.std.specs.Prelude.{◌≡◌};
ghost use Rattle.gw_threads.specs.Ticking.{Ticks};

use crate::standstill::Turns;
use crate::worker::Worker;
use run_clock::Clock;
use run_ends::WorkerEnd;
use run_shared::{Calls, Course, Gate, Pass};
use std::rt::Clock as Sleeps;
use std::sync::Wait;
use std::thread;
use std::time::Duration;

/// Makes a tick every 100 milliseconds, until it is asked to end or no further step can be counted. After a standstill of
/// the host, of which the gate is told, the readers first have 200 milliseconds to take what came meanwhile: only ticks
/// judge what is late.
#[tactic(auto, using(crate::proofs::TicksAlone::ticks_then, crate::proofs::TicksAlone::ticks_none))]
pub fn clock<L: Course, S: Calls<L>, R: Wait + Sleeps, C: Clock, G: Gate>(
    rt: &R,
    shared: &S,
    pass: Pass<L>,
    clock: &C,
    gate: &G,
) -> (Pass<L>, WorkerEnd)
    ensures own { result.0.actor ≡ pass.actor }
    ensures ticks { Ticks L.setup pass result.0 }
    ensures end { result.1 ≡ WorkerEnd.Stopping }
{
    let mut turns = Turns::new(clock.moment());
    let mut worker = Worker {
        rt,
        shared,
        pass,
        clock,
        gate,
    };
    'ticks: for _ in rt.forever() {
        let Some(rest) = worker.tick(&mut turns) else {
            break;
        };
        thread::sleep(rt, Duration::from_millis(rest));
    }
    (worker.pass, WorkerEnd::Stopping)
}
