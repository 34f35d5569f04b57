//! The reader of a client.
ghost use Rattle.std.specs.Prelude.{◌≡◌, ◌||◌, [], IfNone, IfSome, Ok, Some};
ghost use Rattle.iec_apci.specs.Calls.{ending_after_piece, reading_of_ending};
ghost use Rattle.run_ends.specs.Ends.{is_read_fault, IsOfSteps, MayEnd};
ghost use Rattle.run_shared.specs.Turn.{Pass as Seen};
ghost use Rattle.gw_threads.specs.Frames.{end_by, Asks, Frames, Loses, Reads, Takes, TakesAnswer};

use crate::worker::Worker;
use iec_apci::{ApciFault, Apdu, ApduFeed};
use run_clock::Clock;
use run_ends::{Arrival, Incoming, WorkerEnd};
use run_shared::{Calls, Course, Gate, Pass, Place, Reply, Step, StepFault};
use std::alloc::Global;
use std::sync::Wait;

/// How many octets are read at once.
const PIECE: usize = 4096;

/// The reader of a client.
#[derive(Drop)]
pub struct ClientReader<'a, L: Course, S: Calls<L>, R: Wait, C: Clock, G: Gate> {
    pub worker: Worker<'a, L, S, R, C, G>,
    pub client: u8,
}

/// Makes a step of each APDU that comes from a client, until its octets end or are none, the core closes the
/// connection, or the client isn't up any more. What ends the connection is told to the core, unless the core ended
/// it.
pub fn client_reader<'a, L: Course, S: Calls<L>, R: Wait, I: Incoming, C: Clock, G: Gate>(
    alloc: Global,
    rt: &'a R,
    shared: &'a S,
    pass: Pass<L>,
    client: u8,
    input: &mut I,
    clock: &'a C,
    gate: &'a G,
) -> (Pass<L>, WorkerEnd)
    ensures own { result.0.actor ≡ pass.actor }
    ensures framed { Frames L.setup client pass result.0 (I.given input.old) (I.given input.new) result.1 }
    ensures end { MayEnd result.1 }
    // Its last call told that the client is lost, unless the core closed the connection.
    ensures lost { (mid : Seen) × Loses L.setup client mid result.0 result.1 }
    // It ended by a failed read exactly where one failed, unless one had before.
    ensures failed { I.has_failed input.new ≡ (is_read_fault (Some result.1) || I.has_failed input.old) }
{
    let worker = Worker {
        rt,
        shared,
        pass,
        clock,
        gate,
    };
    let mut reading = ClientReader { worker, client };
    let mut feed = ApduFeed::new(alloc);
    let end = reading.read_on(&mut feed, input);
    reading.lose(end);
    let ClientReader { worker, .. } = reading;
    (worker.pass, end)
}

impl<'a, L: Course, S: Calls<L>, R: Wait, C: Clock, G: Gate> ClientReader<'a, L, S, R, C, G> {
    /// Turn after turn, until the worker is to end.
    fn read_on<I: Incoming>(&mut self, feed: &mut ApduFeed, input: &mut I) -> WorkerEnd
        requires drained { (reading_of_ending feed.old).apdus ≡ [] }
        ensures client { self.new.client ≡ self.old.client }
        ensures reads { Reads L.setup self.old.client self.old.worker.pass self.new.worker.pass (I.given input.old) (I.given input.new)
            feed.old feed.new (Some result) }
        ensures end { MayEnd result }
        ensures failed { I.has_failed input.new ≡ (is_read_fault (Some result) || I.has_failed input.old) }
    {
        let mut buffer = [0; PIECE];
        'pieces: for _ in self.worker.rt.forever() {
            if let Some(end) = self.turn(feed, input, &mut buffer) {
                return end;
            }
        }
        unreachable!()
    }

    /// One turn: takes what comes from the client, for which it waits as long as the input does. How the worker ends, if it does.
    #[tactic(auto, using(run_ends::proofs::Failed::reading_fails, run_ends::proofs::Failed::steps_read))]
    pub fn turn<I: Incoming>(
        &mut self,
        feed: &mut ApduFeed,
        input: &mut I,
        buffer: &mut [u8],
    ) -> Option<WorkerEnd>
        requires drained { (reading_of_ending feed.old).apdus ≡ [] }
        ensures client { self.new.client ≡ self.old.client }
        ensures reads { Reads L.setup self.old.client self.old.worker.pass self.new.worker.pass (I.given input.old) (I.given input.new)
            feed.old feed.new result }
        ensures drained { IfNone result ((reading_of_ending feed.new).apdus ≡ []) }
        ensures end { IfSome result MayEnd }
        ensures failed { I.has_failed input.new ≡ (is_read_fault result || I.has_failed input.old) }
    {
        let arrival = input.receive(buffer);
        match arrival {
            Arrival::Octets(count) => self.take(feed, &buffer[..count]),
            Arrival::Later => {
                if self.worker.shared.stands(self.worker.rt, self.client) {
                    None
                } else {
                    Some(WorkerEnd::Stopping)
                }
            }
            Arrival::End | Arrival::Fault => arrival.end(),
        }
    }

    /// Tells the core that the connection is lost, unless the core closed it: what follows the last turn.
    pub fn lose(&mut self, end: WorkerEnd)
        ensures { Loses L.setup self.old.client self.old.worker.pass self.new.worker.pass end }
    {
        if let WorkerEnd::Closed(_) = end {
            return;
        }
        self.worker.lose_client(self.client);
    }

    /// Takes a piece: a step of each APDU that is whole then. How the worker ends, if it does.
    fn take(&mut self, feed: &mut ApduFeed, piece: &[u8]) -> Option<WorkerEnd>
        ensures client { self.new.client ≡ self.old.client }
        ensures takes { Takes L.setup self.old.client self.old.worker.pass self.new.worker.pass
            (ending_after_piece feed.old piece.now) feed.new result }
        ensures drained { IfNone result ((reading_of_ending feed.new).apdus ≡ []) }
        ensures end { IfSome result IsOfSteps }
    {
        if feed.feed(piece).is_err() {
            return Some(WorkerEnd::Memory);
        }
        'apdus: while let Some(answer) = feed.next() {
            if let Some(end) = self.take_answer(answer) {
                return Some(end);
            }
        }
        None
    }

    /// Takes an APDU, or the fault that was met. How the worker ends, if it does.
    fn take_answer(&mut self, answer: Result<Apdu, ApciFault>) -> Option<WorkerEnd>
        ensures client { self.new.client ≡ self.old.client }
        ensures takes { TakesAnswer L.setup self.old.client self.old.worker.pass self.new.worker.pass answer result }
        ensures end { IfSome result IsOfSteps }
    {
        match answer {
            Ok(apdu) => self.step(apdu),
            Err(fault) => Some(WorkerEnd::Malformed(fault)),
        }
    }

    /// Makes the step of an APDU. How the worker ends, if it does.
    fn step(&mut self, apdu: Apdu) -> Option<WorkerEnd>
        ensures client { self.new.client ≡ self.old.client }
        ensures takes { TakesAnswer L.setup self.old.client self.old.worker.pass self.new.worker.pass (Ok apdu) result }
        ensures end { IfSome result IsOfSteps }
    {
        let reply = self.ask(apdu);
        end_by(&reply)
    }

    /// Makes the step of an APDU. Gives the reply.
    fn ask(&mut self, apdu: Apdu) -> Result<Reply, StepFault>
        ensures client { self.new.client ≡ self.old.client }
        ensures asks { Asks L.setup self.old.client self.old.worker.pass self.new.worker.pass apdu result }
    {
        self.worker.come_to(Place::Decoded);
        let step = Step::Frame {
            client: self.client,
            apdu,
            moment: self.worker.clock.moment(),
        };
        let reply = self.worker.make(step);
        self.worker.come_to(Place::Stepped);
        reply
    }
}

/// How the worker ends by what the core answers, if it does.
fn end_by(reply: &Result<Reply, StepFault>) -> Option<WorkerEnd>
    ensures end_by { result ≡ end_by reply.now }
    ensures end { IfSome result IsOfSteps }
{
    match reply {
        Ok(Reply::Closed(why)) => Some(WorkerEnd::Closed(*why)),
        Ok(_) => None,
        Err(StepFault::Memory) => Some(WorkerEnd::Memory),
        Err(_) => Some(WorkerEnd::Stopping),
    }
}
