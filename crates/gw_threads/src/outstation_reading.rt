//! The reader of an outstation.
ghost use Rattle.std.specs.Prelude.{◌≡◌, ◌≤◌, ◌||◌, [], ◌∷◌, ◌++◌, length};
ghost use Rattle.std.specs.Prelude.{option_to_list, Err, IfSome, MatchOption, Some};
ghost use Rattle.dnp_link.specs.FrameContent.{content};
ghost use Rattle.dnp_receive.specs.Delivery.{response_at};
ghost use Rattle.run_ends.specs.Ends.{is_read_fault, is_write_fault, IsOfFrames, IsOfSilence, MayEndBetween};
ghost use Rattle.run_shared.specs.Turn.{Pass as Seen};
ghost use Rattle.gw_threads.specs.Sends.{TellsOutstationLoss};
ghost use Rattle.gw_threads.specs.Confirms.{confirmation_in, Confirms, ReadsFurther, ReadsOn};
ghost use Rattle.gw_threads.specs.Heard.{Hears, HearsFrames, HearsOctets, HearsOf, HearsPiece, IsDrained};

use crate::link_check::{LinkCheck, Look};
use crate::worker::Worker;
use dnp_app::{AppFault, Response, read_response};
use dnp_link::{Frame, LinkEvent, LinkFeed};
use dnp_receive::Receiver;
use run_clock::Clock;
use run_ends::{Arrival, Front, Incoming, Line, LineCourse, Outgoing, Sending, WorkerEnd};
use run_shared::{
    Bell, Calls, Course, FrameHeader, Gate, Load, Pass, Place, Reply, Step, StepFault, Verdict,
};
use std::alloc::Global;
use std::cell::Cell;
use std::sync::Wait;
use std::time::Duration;

/// How many octets are read at once.
const PIECE: usize = 4096;

/// The most octets of a fragment.
const LONGEST_FRAGMENT: usize = 2048;

/// The milliseconds behind which a reader that waits for clients looks at them again.
const NAP_MS: u64 = 5;

/// How long the reader of an outstation waits at most, in milliseconds.
#[derive(Clone, Copy)]
pub struct Patience {
    /// Before it takes a fragment, for clients that have no room for what that brings.
    pub for_clients: u64,
    /// For a fragment that is taken, while other octets come.
    pub for_answers: u64,
    /// For octets, behind the request for the status of the link.
    pub for_status: u64,
}

/// The reader of an outstation.
#[derive(Drop)]
pub struct OutstationReader<
    'a,
    'b,
    L: Course,
    N: LineCourse,
    S: Calls<L>,
    R: Wait,
    W: Outgoing,
    C: Clock,
    G: Gate,
> {
    pub worker: Worker<'a, L, S, R, C, G>,
    pub alloc: Global,
    pub outstation: u8,
    pub line: &'b Line<W, N>,
    /// What of the line's history it has seen.
    pub front: Front<Sending, N>,
    pub patience: Patience,
    /// When a fragment was taken last, or the reader began, in milliseconds.
    pub heard: u64,
    pub link: Cell<LinkCheck>,
    /// The octets of the last fragment, at the front.
    pub recent: [u8; LONGEST_FRAGMENT],
}

/// Makes a step of each response that comes from an outstation, and sends what is owed for it: the replies of the
/// link, and confirmations. It ends where its octets end, reading or writing fails, memory runs out, the outstation
/// isn't up any more, or octets came but for too long none of them was a fragment that the core took; that is told to the
/// core. Where nothing came for a minute it asks for the status of the link (`LinkCheck`). Where a client that reads has no
/// room for what a fragment brings, it waits before it takes that, so that the outstation is held back; but no longer than its
/// patience. A fragment without observations is taken at once.
pub fn outstation_reader<
    'a,
    'b,
    L: Course,
    N: LineCourse,
    S: Calls<L>,
    R: Wait,
    I: Incoming,
    W: Outgoing,
    C: Clock,
    G: Gate,
>(
    alloc: Global,
    rt: &'a R,
    shared: &'a S,
    pass: Pass<L>,
    outstation: u8,
    receiver: Receiver,
    input: &mut I,
    line: &'b Line<W, N>,
    clock: &'a C,
    gate: &'a G,
    patience: Patience,
) -> (Pass<L>, Front<Sending, N>, WorkerEnd)
    ensures own { result.0.actor ≡ pass.actor }
    // It ended by a failed write exactly where something that it sent wasn't taken whole.
    ensures confirmed { ReadsOn L.setup outstation pass result.0 result.1 (is_write_fault (Some result.2)) }
    ensures heard { Hears L.setup outstation receiver pass result.0 (I.given input.old) (I.given input.new) result.2 }
    ensures end { MayEndBetween result.2 }
    // Its last call told that the outstation is lost.
    ensures lost { (mid : Seen) × TellsOutstationLoss L.setup outstation mid result.0 }
    // It ended by a failed read exactly where one failed, unless one had before.
    ensures failed { I.has_failed input.new ≡ (is_read_fault (Some result.2) || I.has_failed input.old) }
{
    let moment = clock.moment();
    let worker = Worker {
        rt,
        shared,
        pass,
        clock,
        gate,
    };
    let mut reading = OutstationReader {
        worker,
        alloc,
        outstation,
        line,
        front: line.join(rt),
        patience,
        heard: moment,
        link: Cell::new(LinkCheck::new(patience.for_status, moment)),
        recent: [0; LONGEST_FRAGMENT],
    };
    let mut feed = LinkFeed::new(alloc);
    let mut receiver = receiver;
    let end = reading.read_on(&mut feed, &mut receiver, input);
    reading.worker.lose_outstation(outstation);
    let OutstationReader { worker, front, .. } = reading;
    (worker.pass, front, end)
}

impl<
    'a,
    'b,
    L: Course,
    N: LineCourse,
    S: Calls<L>,
    R: Wait,
    W: Outgoing,
    C: Clock,
    G: Gate,
> OutstationReader<'a, 'b, L, N, S, R, W, C, G> {
    /// Turn after turn, until the worker is to end.
    fn read_on<I: Incoming>(
        &mut self,
        feed: &mut LinkFeed,
        receiver: &mut Receiver,
        input: &mut I,
    ) -> WorkerEnd
        requires drained { IsDrained feed.old }
        ensures outstation { self.new.outstation ≡ self.old.outstation }
        ensures confirmed { ReadsFurther L.setup self.old self.new (is_write_fault (Some result)) }
        ensures heard { HearsOctets L.setup self.old.outstation self.old.worker.pass self.new.worker.pass receiver.old receiver.new
            feed.old feed.new (I.given input.old) (I.given input.new) (Some result) }
        ensures end { MayEndBetween result }
        ensures failed { I.has_failed input.new ≡ (is_read_fault (Some result) || I.has_failed input.old) }
    {
        let mut buffer = [0; PIECE];
        'pieces: for _ in self.worker.rt.forever() {
            if let Some(end) = self.turn(feed, receiver, input, &mut buffer) {
                return end;
            }
        }
        unreachable!()
    }

    /// One turn: takes what comes from the outstation, for which it waits as long as the input does, or does what is due if nothing
    /// comes. How the worker ends, if it does.
    #[tactic(auto, using(run_ends::proofs::Failed::reader_ends, crate::proofs::Confirming::reads_none))]
    pub fn turn<I: Incoming>(
        &mut self,
        feed: &mut LinkFeed,
        receiver: &mut Receiver,
        input: &mut I,
        buffer: &mut [u8],
    ) -> Option<WorkerEnd>
        requires drained { IsDrained feed.old }
        ensures outstation { self.new.outstation ≡ self.old.outstation }
        ensures confirmed { ReadsFurther L.setup self.old self.new (is_write_fault result) }
        ensures heard { HearsOctets L.setup self.old.outstation self.old.worker.pass self.new.worker.pass receiver.old receiver.new
            feed.old feed.new (I.given input.old) (I.given input.new) result }
        ensures end { IfSome result MayEndBetween }
        ensures failed { I.has_failed input.new ≡ (is_read_fault result || I.has_failed input.old) }
    {
        let arrival = input.receive(buffer);
        match arrival {
            Arrival::Octets(count) => {
                self.hear_octets();
                match self.take(feed, receiver, &buffer[..count]) {
                    None => self.end_without_answers(),
                    end => end,
                }
            }
            Arrival::Later => self.look(),
            Arrival::End | Arrival::Fault => arrival.end(),
        }
    }

    /// An outstation of which nothing was taken for too long is lost, whatever else it sends: so its points don't stay
    /// topical while only its link, or another station on its line, is alive.
    fn end_without_answers(&self) -> Option<WorkerEnd>
        ensures { IfSome result (λ end. end ≡ WorkerEnd.Unanswered) }
    {
        let waited = self.worker.clock.moment().saturating_sub(self.heard);
        if waited >= self.patience.for_answers {
            Some(WorkerEnd::Unanswered)
        } else {
            None
        }
    }

    /// The outstation isn't silent.
    fn hear_octets(&self) {
        let mut link = self.link.get();
        link.hear(self.worker.clock.moment());
        self.link.set(link);
    }

    /// Keeps that a frame tells the status of the link.
    fn hear_status(&self, receiver: &Receiver, frame: &Frame) {
        if receiver.is_status(frame) {
            let mut link = self.link.get();
            link.answer();
            self.link.set(link);
        }
    }

    /// Does what is due where nothing came. How the worker ends, if it does.
    #[tactic(auto, using(crate::proofs::Confirming::reads_none))]
    fn look(&mut self) -> Option<WorkerEnd>
        ensures outstation { self.new.outstation ≡ self.old.outstation }
        ensures pass { self.new.worker.pass ≡ self.old.worker.pass }
        ensures confirmed { ReadsFurther L.setup self.old self.new (is_write_fault result) }
        ensures end { IfSome result IsOfSilence }
    {
        let mut link = self.link.get();
        let look = link.look(self.worker.clock.moment());
        self.link.set(link);
        match look {
            Look::Wait => None,
            Look::Ask => self.ask_status(),
            Look::Tell => {
                self.worker.gate.status_unanswered(self.outstation);
                None
            }
            Look::Lose => Some(WorkerEnd::LinkUnanswered),
        }
    }

    /// Asks for the status of the link. How the worker ends, if it does.
    fn ask_status(&mut self) -> Option<WorkerEnd>
        ensures outstation { self.new.outstation ≡ self.old.outstation }
        ensures pass { self.new.worker.pass ≡ self.old.worker.pass }
        ensures confirmed { ReadsFurther L.setup self.old self.new (is_write_fault result) }
        ensures end { IfSome result IsOfSilence }
    {
        self.worker.come_to(Place::BeforeWrite);
        match self.line.ask_status(self.worker.rt, &mut self.front) {
            Ok(()) => None,
            Err(_) => Some(WorkerEnd::WriteFault),
        }
    }

    /// Takes a piece: each frame that is whole then. How the worker ends, if it does.
    fn take(
        &mut self,
        feed: &mut LinkFeed,
        receiver: &mut Receiver,
        piece: &[u8],
    ) -> Option<WorkerEnd>
        ensures outstation { self.new.outstation ≡ self.old.outstation }
        ensures confirmed { ReadsFurther L.setup self.old self.new (is_write_fault result) }
        ensures heard { HearsPiece L.setup self.old.outstation self.old.worker.pass self.new.worker.pass receiver.old receiver.new
            (feed.old ++ piece.now) feed.new result }
        ensures end { IfSome result IsOfFrames }
    {
        if feed.feed(piece).is_err() {
            return Some(WorkerEnd::Memory);
        }
        let mut skipped: u32 = 0;
        'events: while let Some(event) = feed.next() {
            match event {
                LinkEvent::Frame(frame) => {
                    if let Some(end) = self.take_frame(receiver, &frame) {
                        return Some(end);
                    }
                }
                LinkEvent::Skipped(_) => skipped = skipped.saturating_add(1),
            }
        }
        if skipped > 0 {
            self.worker.gate.skipped(self.outstation, skipped);
        }
        None
    }

    /// Takes a frame: sends the reply that the link owes, and takes the fragment that it completes. How the worker
    /// ends, if it does.
    #[tactic(auto, using(crate::proofs::Confirming::reads_none))]
    fn take_frame(&mut self, receiver: &mut Receiver, frame: &Frame) -> Option<WorkerEnd>
        ensures outstation { self.new.outstation ≡ self.old.outstation }
        ensures confirmed { ReadsFurther L.setup self.old self.new (is_write_fault result) }
        ensures heard { HearsFrames L.setup self.old.outstation self.old.worker.pass self.new.worker.pass receiver.old receiver.new
            (content frame.now ∷ []) result }
        ensures end { IfSome result IsOfFrames }
    {
        self.hear_status(receiver, frame);
        self.tell_header(frame);
        let Ok(received) = receiver.take(frame) else {
            return Some(WorkerEnd::Memory);
        };
        if let Some(end) = self.answer_link(&received.reply) {
            return Some(end);
        }
        self.take_fragment(received.fragment?)
    }

    /// Tells the gate of a frame, which the receiver passes over where it isn't from the outstation to the master.
    fn tell_header(&self, frame: &Frame) {
        let header = FrameHeader {
            control: frame.control,
            source: frame.source,
            destination: frame.destination,
        };
        self.worker.gate.received(self.outstation, &header);
    }

    /// Sends the reply that the link owes, if it owes one. How the worker ends, if it does.
    #[tactic(auto, using(crate::proofs::Confirming::reads_none))]
    fn answer_link(&mut self, reply: &Option<[u8; 10]>) -> Option<WorkerEnd>
        ensures outstation { self.new.outstation ≡ self.old.outstation }
        ensures pass { self.new.worker.pass ≡ self.old.worker.pass }
        ensures confirmed { ReadsFurther L.setup self.old self.new (is_write_fault result) }
        ensures end { IfSome result IsOfFrames }
    {
        match reply {
            Some(frame) => {
                self.worker.come_to(Place::BeforeWrite);
                match self.line.reply(self.worker.rt, &mut self.front, frame) {
                    Ok(()) => None,
                    Err(_) => Some(WorkerEnd::WriteFault),
                }
            }
            None => None,
        }
    }

    /// Takes a fragment: its response, unless it is refused. How the worker ends, if it does.
    #[tactic(auto, using(crate::proofs::Confirming::reads_none))]
    fn take_fragment(&mut self, octets: Vec<u8>) -> Option<WorkerEnd>
        requires { length octets.items ≤ 2048 }
        ensures outstation { self.new.outstation ≡ self.old.outstation }
        ensures confirmed { ReadsFurther L.setup self.old self.new (is_write_fault result) }
        ensures heard { HearsOf L.setup self.old.worker.pass self.new.worker.pass
            (option_to_list (response_at self.old.outstation octets.items)) result }
        ensures end { IfSome result IsOfFrames }
    {
        let count = octets.len();
        self.recent[..count].copy_from_slice(octets.as_slice());
        match read_response(self.alloc, self.outstation, octets) {
            Ok(response) => {
                self.tell_passed_over(&response);
                self.step(response)
            }
            Err(fault) => match fault {
                AppFault::Memory => Some(WorkerEnd::Memory),
                _ => {
                    let octets = &self.recent[..count];
                    self.worker.gate.refused(self.outstation, octets, &fault);
                    None
                }
            },
        }
    }

    /// Tells the gate of objects of kinds that aren't taken.
    fn tell_passed_over(&self, response: &Response) {
        let objects = response.stepped_over() as u64;
        if objects > 0 {
            self.worker.gate.passed_over(self.outstation, objects);
        }
    }

    /// Makes the step of a response, and sends its confirmation where one is owed. How the worker ends, if it does.
    fn step(&mut self, response: Response) -> Option<WorkerEnd>
        requires own { response.outstation ≡ self.old.outstation }
        ensures outstation { self.new.outstation ≡ self.old.outstation }
        ensures confirmed { ReadsFurther L.setup self.old self.new (is_write_fault result) }
        ensures heard { HearsOf L.setup self.old.worker.pass self.new.worker.pass (response ∷ []) result }
        ensures end { IfSome result IsOfFrames }
    {
        let asks = response.control().con;
        let size = response.reports().len() as u64;
        self.worker.come_to(Place::Decoded);
        if size > 0 {
            self.wait_for_clients(size);
        }
        if asks {
            self.line.owe(self.worker.rt);
        }
        let end = self.ask(response);
        if asks {
            self.line.settle(self.worker.rt);
        }
        end
    }

    /// Makes the step of a response, and sends its confirmation where one is owed. How the worker ends, if it does.
    fn ask(&mut self, response: Response) -> Option<WorkerEnd>
        requires own { response.outstation ≡ self.old.outstation }
        ensures outstation { self.new.outstation ≡ self.old.outstation }
        ensures confirmed { ReadsFurther L.setup self.old self.new (is_write_fault result) }
        ensures heard { HearsOf L.setup self.old.worker.pass self.new.worker.pass (response ∷ []) result }
        ensures end { IfSome result IsOfFrames }
    {
        let moment = self.worker.clock.moment();
        let step = Step::Fragment { response, moment };
        let reply = self.worker.make(step);
        self.worker.come_to(Place::Stepped);
        self.hear(&reply, moment);
        self.confirm(&reply)
    }

    /// Keeps the moment, where the core took a fragment.
    fn hear(&mut self, reply: &Result<Reply, StepFault>, moment: u64)
        ensures outstation { self.new.outstation ≡ self.old.outstation }
        ensures pass { self.new.worker.pass ≡ self.old.worker.pass }
        ensures front { self.new.front ≡ self.old.front }
    {
        if is_taken(reply) {
            self.heard = moment;
        }
    }

    /// Waits until the clients that read have room for what a fragment brings, which tells of so many observations.
    fn wait_for_clients(&self, size: u64) {
        let bell = Bell::new();
        let began = self.worker.clock.moment();
        for _nap in 0..self.patience.for_clients / NAP_MS {
            let moment = self.worker.clock.moment();
            let load = Load {
                outstation: self.outstation,
                size,
                waited: moment.saturating_sub(began),
                patience: self.patience.for_clients,
            };
            if self.worker.shared.stopping()
                || !self.worker.shared.is_outrun(self.worker.rt, load, moment)
            {
                return;
            }
            bell.wait_for(self.worker.rt, 0, Duration::from_millis(NAP_MS));
        }
    }

    /// Sends the confirmation that a reply of the core owes, if it owes one. How the worker ends, if it does.
    fn confirm(&mut self, reply: &Result<Reply, StepFault>) -> Option<WorkerEnd>
        ensures outstation { self.new.outstation ≡ self.old.outstation }
        ensures confirmed { Confirms reply.now self.old.front self.new.front (is_write_fault result) }
        ensures spent { reply.now ≡ Err StepFault.Spent → result ≡ Some WorkerEnd.Stopping }
        ensures pass { self.new.worker.pass ≡ self.old.worker.pass }
        ensures end { IfSome result IsOfFrames }
    {
        match owed_by(reply) {
            Some(octets) => {
                self.worker.come_to(Place::BeforeWrite);
                match self.line.confirm(self.worker.rt, &mut self.front, &octets) {
                    Ok(()) => None,
                    Err(_) => Some(WorkerEnd::WriteFault),
                }
            }
            None => match reply {
                Ok(_) => None,
                Err(StepFault::Memory) => Some(WorkerEnd::Memory),
                Err(_) => Some(WorkerEnd::Stopping),
            },
        }
    }
}

/// The confirmation that a reply of the core owes, if it owes one.
fn owed_by(reply: &Result<Reply, StepFault>) -> Option<[u8; 2]>
    ensures { MatchOption result (confirmation_in reply.now ≡ []) (λ octets. confirmation_in reply.now ≡ octets ∷ []) }
{
    match reply {
        Ok(Reply::Verdict(Verdict::Accepted { confirm, .. } | Verdict::Repeated { confirm })) => {
            *confirm
        }
        Ok(
            Reply::Verdict(Verdict::Ignored(_))
            | Reply::Done
            | Reply::Request(_)
            | Reply::Apdu(_)
            | Reply::Taken
            | Reply::Closed(_)
            | Reply::Nothing
            | Reply::Ticked { .. },
        )
        | Err(_) => None,
    }
}

/// Whether the core took a fragment, or had taken it before.
fn is_taken(reply: &Result<Reply, StepFault>) -> bool {
    matches!(
        reply,
        Ok(Reply::Verdict(Verdict::Accepted { .. } | Verdict::Repeated { .. }))
    )
}
