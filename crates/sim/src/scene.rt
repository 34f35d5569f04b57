//! What all parts of the world share.
ghost use Rattle.std.specs.Prelude.{◌≡◌};
ghost use Rattle.run_shared.specs.Roles.{anybody};

use crate::ends::Outbox;
use gw_threads::{Gate, Worker, WorkerEnd};
use run_shared::{Calls, Course, Pass};
use sim_peers::{Log, Number, Pipe, Random, Scenario, VirtualClock, Weather};
use std::alloc::{AllocError, Global};
use std::marker::PhantomData;
use std::sync::Wait;

/// What the gateway writes to each peer.
#[derive(Drop)]
pub struct Stage {
    pub outstations: Vec<Outbox>,
    pub centres: Vec<Outbox>,
}

impl Stage {
    /// Nothing was written to so many.
    pub fn new(alloc: Global, outstations: u64, centres: u64) -> Result<Stage, AllocError> {
        Ok(Stage {
            outstations: boxes(alloc, outstations)?,
            centres: boxes(alloc, centres)?,
        })
    }
}

fn boxes(alloc: Global, count: u64) -> Result<Vec<Outbox>, AllocError> {
    let mut boxes = Vec::new(alloc);
    for _ in 0..count {
        boxes.push(Outbox::new(alloc))?;
    }
    Ok(boxes)
}

/// What all parts of the world share.
#[derive(Drop)]
pub struct Scene<'a, L: Course, S, R, G> {
    pub alloc: Global,
    pub rt: &'a R,
    pub shared: &'a S,
    pub clock: &'a VirtualClock,
    pub gate: &'a G,
    pub log: &'a Log<'a>,
    pub scenario: &'a Scenario,
    pub stage: &'a Stage,
    /// When the play ends.
    pub until: u64,
    pub of: PhantomData<L>,
    pub ghost roles_are: { L.roles ≡ anybody },
}

impl<'a, L: Course, S, R, G> Scene<'a, L, S, R, G> {
    /// A way of a connection, by its number.
    pub fn pipe(&self, number: u64) -> Pipe {
        let weather = Weather {
            latency: self.scenario.of(Number::LatencyMs),
            cut: self.scenario.of(Number::Cut),
            stall: self.scenario.of(Number::StallMs),
        };
        Pipe::new(self.alloc, weather, self.random(number))
    }

    /// Random numbers of a part, by its number.
    pub fn random(&self, number: u64) -> Random {
        Random::new(self.scenario.seed, number.saturating_add(1000))
    }
}

impl<'a, L: Course, S: Calls<L>, R: Wait, G: Gate> Scene<'a, L, S, R, G> {
    /// A worker with this pass.
    pub fn worker(&self, pass: Pass<L>) -> Worker<'a, L, S, R, VirtualClock, G>
        ensures { result.pass ≡ pass }
    {
        Worker {
            rt: self.rt,
            shared: self.shared,
            pass,
            clock: self.clock,
            gate: self.gate,
        }
    }
}

/// What moves by itself: it tells when something is due, and does that.
pub trait Part {
    /// When something is due.
    fn due(&self) -> u64;

    /// Does something of what is due at a moment.
    fn act(&mut self, now: u64);

    /// How many workers have not ended.
    fn at_work(&self) -> u64;
}

/// Two of them.
#[derive(Drop)]
pub struct Pair<A, B> {
    pub first: A,
    pub second: B,
}

impl<A: Part, B: Part> Part for Pair<A, B> {
    fn due(&self) -> u64 {
        self.first.due().min(self.second.due())
    }

    fn act(&mut self, now: u64) {
        self.first.act(now);
        self.second.act(now);
    }

    fn at_work(&self) -> u64 {
        self.first.at_work().saturating_add(self.second.at_work())
    }
}

/// Two of them, lent, so that each stands in one place however many there are.
#[derive(Drop)]
pub struct Lent<'a, 'b, A, B> {
    pub first: &'a mut A,
    pub second: &'b mut B,
}

impl<'a, 'b, A: Part, B: Part> Part for Lent<'a, 'b, A, B> {
    fn due(&self) -> u64 {
        self.first.due().min(self.second.due())
    }

    fn act(&mut self, now: u64) {
        self.first.act(now);
        self.second.act(now);
    }

    fn at_work(&self) -> u64 {
        self.first.at_work().saturating_add(self.second.at_work())
    }
}

impl<P: Part> Part for Vec<P> {
    fn due(&self) -> u64 {
        let mut due = u64::MAX;
        for part in self {
            due = due.min(part.due());
        }
        due
    }

    fn act(&mut self, now: u64) {
        for part in self.iter_mut() {
            part.act(now);
        }
    }

    fn at_work(&self) -> u64 {
        let mut count: u64 = 0;
        for part in self {
            count = count.saturating_add(part.at_work());
        }
        count
    }
}

/// A number for how a worker ended.
pub fn code_of(end: WorkerEnd) -> u64 {
    match end {
        WorkerEnd::EndOfInput => 1,
        WorkerEnd::ReadFault => 2,
        WorkerEnd::Unanswered => 3,
        WorkerEnd::LinkUnanswered => 4,
        WorkerEnd::WriteFault => 5,
        WorkerEnd::Malformed(_) => 6,
        WorkerEnd::Memory => 7,
        WorkerEnd::Stopping => 8,
        WorkerEnd::Closed(why) => 10 + u64::from(why as u8),
    }
}
