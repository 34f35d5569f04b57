//! What is told in the order of the steps that it is of.

use gw_model::Memory;
use std::alloc::Global;
use std::sync::{Condvar, Mutex, Wait};

/// From where a step comes of which something is told that others wait for. Of one source a step follows the other, but for
/// losses, which two workers may tell of.
#[derive(Clone, Copy)]
pub enum StepSource {
    /// APDUs of a client.
    Client(u8),
    /// Fragments of an outstation.
    Outstation(u8),
    /// The loss of an outstation.
    Loss(u8),
    /// Time.
    Clock,
}

/// The steps of a source.
#[derive(Clone, Copy)]
struct Steps {
    /// How many have begun.
    begun: u64,
    /// How many of them are under way: nothing was told of them yet.
    under_way: u64,
    /// Of all those that had begun by this number it was told.
    told: u64,
}

/// A source, and the bell for those who wait.
#[derive(Drop)]
struct Lane {
    steps: Mutex<Steps>,
    settled: Condvar,
}

impl Lane {
    fn new() -> Lane {
        Lane {
            steps: Mutex::new(Steps {
                begun: 0,
                under_way: 0,
                told: 0,
            }),
            settled: Condvar::new(),
        }
    }

    fn begin<R: Wait>(&self, rt: &R) {
        let mut steps = self.steps.lock(rt);
        steps.begun = steps.begun.saturating_add(1);
        steps.under_way = steps.under_way.saturating_add(1);
    }

    fn end<R: Wait>(&self, rt: &R) {
        let mut steps = self.steps.lock(rt);
        steps.under_way = steps.under_way.saturating_sub(1);
        if steps.under_way == 0 {
            steps.told = steps.begun;
            self.settled.notify_all();
        }
    }

    fn settle<R: Wait>(&self, rt: &R) {
        let steps = self.steps.lock(rt);
        let begun = steps.begun;
        let _settled = self
            .settled
            .wait_while(rt, steps, |steps| steps.told < begun);
    }
}

/// Which steps have begun, and of which it was told. A worker that tells what follows from steps of others waits until those
/// were told that had begun before, so that a cause stands before what follows from it.
#[derive(Drop)]
pub struct Sequence {
    outstations: Vec<Lane>,
    losses: Vec<Lane>,
    clients: Vec<Lane>,
    clock: Lane,
}

/// So many of them.
fn lanes(alloc: Global, count: usize) -> Result<Vec<Lane>, Memory> {
    let mut lanes = Vec::with_capacity(alloc, count)?;
    for _ in 0..count {
        lanes.push(Lane::new())?;
    }
    Ok(lanes)
}

/// Waits until all steps of these that have begun by now were told.
fn settle_all<R: Wait>(rt: &R, lanes: &[Lane]) {
    for lane in lanes {
        lane.settle(rt);
    }
}

impl Sequence {
    /// No step has begun, of so many outstations and clients.
    pub fn new(alloc: Global, outstations: usize, clients: usize) -> Result<Sequence, Memory> {
        Ok(Sequence {
            outstations: lanes(alloc, outstations)?,
            losses: lanes(alloc, outstations)?,
            clients: lanes(alloc, clients)?,
            clock: Lane::new(),
        })
    }

    /// A step is about to be made.
    pub fn begin<R: Wait>(&self, rt: &R, source: StepSource) {
        if let Some(lane) = self.lane(source) {
            lane.begin(rt);
        }
    }

    /// It was made, and told of.
    pub fn end<R: Wait>(&self, rt: &R, source: StepSource) {
        if let Some(lane) = self.lane(source) {
            lane.end(rt);
        }
    }

    /// Waits until all steps that have begun by now were told.
    pub fn settle<R: Wait>(&self, rt: &R) {
        self.clock.settle(rt);
        settle_all(rt, &self.clients);
        settle_all(rt, &self.outstations);
        settle_all(rt, &self.losses);
    }

    fn lane(&self, source: StepSource) -> Option<&Lane> {
        match source {
            StepSource::Client(client) => self.clients.get(usize::from(client)),
            StepSource::Outstation(outstation) => self.outstations.get(usize::from(outstation)),
            StepSource::Loss(outstation) => self.losses.get(usize::from(outstation)),
            StepSource::Clock => Some(&self.clock),
        }
    }
}
