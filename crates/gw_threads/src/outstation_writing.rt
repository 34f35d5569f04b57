//! The writer towards an outstation.
ghost use Rattle.std.specs.Prelude.{◌≡◌, false, true, IfSome, MatchOption, Some};
ghost use Rattle.run_ends.specs.Ends.{is_write_fault, MayEndWriting};
ghost use Rattle.run_shared.specs.Roles.{IsOne};
ghost use Rattle.run_shared.specs.Turn.{Pass as Seen};
ghost use Rattle.gw_threads.specs.Sends.{is_request, PollsOnce, SendsAll, SendsAllGiven, SentAll, TellsOutstationLoss};

use crate::awaited::Awaited;
use crate::worker::Worker;
use dnp_app::Request;
use run_clock::Clock;
use run_ends::{Front, Line, LineCourse, Outgoing, Sending, WorkerEnd};
use run_shared::{Calls, Course, Gate, Pass, Place, Reply, Step, StepFault};
use std::sync::Wait;

/// The writer towards an outstation.
#[derive(Drop)]
pub struct OutstationWriter<
    'a,
    'b,
    L: Course,
    N: LineCourse,
    S: Calls<L>,
    R: Wait,
    W: Outgoing,
    C: Clock,
    G: Gate,
> {
    pub worker: Worker<'a, L, S, R, C, G>,
    pub outstation: u8,
    pub line: &'b Line<W, N>,
    /// What of the line's history it has seen.
    pub front: Front<Sending, N>,
    /// What it waits for before its next turn.
    pub awaits: Awaited,
}

/// Sends an outstation the requests that the core gives, until it isn't up any more, writing fails, or the worker is
/// asked to end. If none is due it sleeps until a step may bring one. It waits before it asks for the next if the
/// outstation isn't to be asked yet, unless an order waits.
pub fn outstation_writer<
    'a,
    'b,
    L: Course,
    N: LineCourse,
    S: Calls<L>,
    R: Wait,
    W: Outgoing,
    C: Clock,
    G: Gate,
>(
    rt: &'a R,
    shared: &'a S,
    pass: Pass<L>,
    outstation: u8,
    line: &'b Line<W, N>,
    clock: &'a C,
    gate: &'a G,
) -> (Pass<L>, Front<Sending, N>, WorkerEnd)
    requires may { IsOne (L.roles.poller outstation) pass.actor }
    ensures own { result.0.actor ≡ pass.actor }
    // It ended by a failed write exactly where one of its requests wasn't taken whole.
    ensures sent { SendsAll L.setup outstation pass result.0 result.1 (is_write_fault (Some result.2)) }
    // Where the outstation's polls are left to this actor, these requests are all that they were answered with.
    ensures all { L.roles.poller outstation ≡ Some pass.actor → SendsAllGiven outstation pass result.0 result.1 }
    // Where it ended by a failed write, its last call told that the outstation is lost.
    ensures lost { is_write_fault (Some result.2) ≡ true → (mid : Seen) × TellsOutstationLoss L.setup outstation mid result.0 }
    ensures end { MayEndWriting result.2 }
{
    pass.attest();
    let worker = Worker {
        rt,
        shared,
        pass,
        clock,
        gate,
    };
    let mut writer = OutstationWriter {
        worker,
        outstation,
        line,
        front: line.join(rt),
        awaits: Awaited::Nothing,
    };
    let end = writer.write_on();
    writer.worker.pass.attest();
    let OutstationWriter { worker, front, .. } = writer;
    (worker.pass, front, end)
}

impl<
    'a,
    'b,
    L: Course,
    N: LineCourse,
    S: Calls<L>,
    R: Wait,
    W: Outgoing,
    C: Clock,
    G: Gate,
> OutstationWriter<'a, 'b, L, N, S, R, W, C, G> {
    /// Turn after turn, until the worker is to end.
    fn write_on(&mut self) -> WorkerEnd
        requires may { IsOne (L.roles.poller self.old.outstation) self.old.worker.pass.actor }
        ensures sent { SentAll L.setup self.old.outstation self.old.worker.pass self.new.worker.pass self.old.front self.new.front
            (is_write_fault (Some result)) }
        ensures lost { is_write_fault (Some result) ≡ true
            → (mid : Seen) × TellsOutstationLoss L.setup self.old.outstation mid self.new.worker.pass }
        ensures end { MayEndWriting result }
    {
        'requests: for _ in self.worker.rt.forever() {
            if let Some(end) = self.turn() {
                return end;
            }
            self.awaits.wait(
                self.worker.rt,
                self.worker.shared.outstation_bell(self.outstation),
            );
        }
        unreachable!()
    }

    /// One turn: sends the next request if one is due. How the worker ends, if it does; else it waits for what it awaits then.
    #[tactic(auto, using(crate::proofs::Requesting::sent_none, crate::proofs::Requesting::sent_loss))]
    pub fn turn(&mut self) -> Option<WorkerEnd>
        requires may { IsOne (L.roles.poller self.old.outstation) self.old.worker.pass.actor }
        ensures outstation { self.new.outstation ≡ self.old.outstation }
        ensures sent { SentAll L.setup self.old.outstation self.old.worker.pass self.new.worker.pass self.old.front self.new.front
            (is_write_fault result) }
        ensures lost { is_write_fault result ≡ true
            → (mid : Seen) × TellsOutstationLoss L.setup self.old.outstation mid self.new.worker.pass }
        ensures end { IfSome result MayEndWriting }
    {
        // Read before all that a ring may tell of.
        let rung = self.ring_count();
        if self.worker.shared.stopping() {
            return Some(WorkerEnd::Stopping);
        }
        if self.rests(rung) {
            return None;
        }
        let end = self.send_next(rung)?;
        self.lose();
        Some(end)
    }

    /// Whether the outstation isn't to be asked yet. Then the worker waits for as long, unless an order comes for it, which rings.
    fn rests(&mut self, rung: u64) -> bool
        ensures outstation { self.new.outstation ≡ self.old.outstation }
        ensures pass { self.new.worker.pass ≡ self.old.worker.pass }
        ensures front { self.new.front ≡ self.old.front }
    {
        let milliseconds = self.worker.shared.rest(
            self.worker.rt,
            self.outstation,
            self.worker.clock.moment(),
        );
        self.awaits = Awaited::RingOrTime { rung, milliseconds };
        milliseconds != 0
    }

    /// Sends the next request if one is due; why the outstation is lost, if it is. No other is due before a step that rings.
    #[tactic(auto, using(crate::proofs::Requesting::sent_request, crate::proofs::Requesting::sent_nothing))]
    fn send_next(&mut self, rung: u64) -> Option<WorkerEnd>
        requires may { IsOne (L.roles.poller self.old.outstation) self.old.worker.pass.actor }
        ensures outstation { self.new.outstation ≡ self.old.outstation }
        ensures sent { SentAll L.setup self.old.outstation self.old.worker.pass self.new.worker.pass self.old.front self.new.front
            (is_write_fault result) }
        ensures end { IfSome result MayEndWriting }
    {
        self.awaits = Awaited::Ring(rung);
        let answer = self.poll();
        match request_in(&answer) {
            Some(request) => {
                self.worker.come_to(Place::BeforeWrite);
                match self.line.request(self.worker.rt, &mut self.front, &request) {
                    Ok(()) => None,
                    Err(_) => Some(WorkerEnd::WriteFault),
                }
            }
            None => {
                if answer.is_err() {
                    return Some(WorkerEnd::Stopping);
                }
                None
            }
        }
    }

    /// How often the outstation's bell was rung.
    pub fn ring_count(&self) -> u64 {
        match self.worker.shared.outstation_bell(self.outstation) {
            Some(bell) => bell.ring_count(),
            None => 0,
        }
    }

    /// Tells the core that the outstation is lost.
    fn lose(&mut self)
        ensures outstation { self.new.outstation ≡ self.old.outstation }
        ensures front { self.new.front ≡ self.old.front }
        ensures told { TellsOutstationLoss L.setup self.old.outstation self.old.worker.pass self.new.worker.pass }
    {
        self.worker.lose_outstation(self.outstation);
    }

    /// Asks the core for the next request.
    fn poll(&mut self) -> Result<Reply, StepFault>
        requires { IsOne (L.roles.poller self.old.outstation) self.old.worker.pass.actor }
        ensures outstation { self.new.outstation ≡ self.old.outstation }
        ensures front { self.new.front ≡ self.old.front }
        ensures polled { PollsOnce L.setup self.old.outstation self.old.worker.pass self.new.worker.pass result }
    {
        let step = Step::Poll {
            outstation: self.outstation,
            moment: self.worker.clock.moment(),
            wall: self.worker.clock.wall(),
        };
        self.worker.make(step)
    }
}

/// The request of an answer, if it is one.
fn request_in(answer: &Result<Reply, StepFault>) -> Option<Request>
    ensures { MatchOption result (is_request answer.now ≡ false) (λ request. answer.now ≡ Ok (Reply.Request request)) }
{
    match answer {
        Ok(Reply::Request(request)) => Some(*request),
        Ok(
            Reply::Done
            | Reply::Verdict(_)
            | Reply::Apdu(_)
            | Reply::Taken
            | Reply::Closed(_)
            | Reply::Nothing
            | Reply::Ticked { .. },
        )
        | Err(_) => None,
    }
}
