//! The server's observer and gate: it keeps what is known of each peer, tells the journal what an operator should know, and
//! hands on to the gate that it was given. No lock of the core is held here.

use crate::controls::{note_refusal, tell_end, tell_of_commands, tell_of_controls};
use dnp_app::AppFault;
use iec_apci::{Apdu, Apdus, Signal};
use run_clock::Clock;
use run_journal::{JournalEvent, Unreadable, Way};
use run_peers::{Reporter, StepSource};
use run_shared::{
    ApduKind, Effects, FrameHeader, Gate, Observer, Place, Pumps, Reply, Reported, Step, StepFault,
    StepKind, UnknownAsdu, Verdict,
};
use std::sync::Wait;

/// Where the control field of an APDU begins, and with which octet that of a TESTFR act does (IEC 60870-5-104, 5.1).
const CONTROL: usize = 2;

const TEST_ACT: u8 = 0x43;

/// A gate with the reporter beside it.
#[derive(Drop)]
pub struct Watched<'a, R, C, G> {
    pub reporter: &'a Reporter<'a, R, C>,
    pub gate: &'a G,
}

/// A fragment of an outstation that said this was accepted by the step of this number, and ends the answer to a request or
/// doesn't.
fn note_response<R: Wait, C: Clock>(
    reporter: &Reporter<'_, R, C>,
    step: u64,
    outstation: u8,
    reported: &Reported,
    ends: bool,
) {
    let Some(record) = reporter.peers.outstation(outstation) else {
        return;
    };
    let wall = reporter.clock.wall();
    let noticed = record
        .figures
        .lock(reporter.rt)
        .note_response(step, wall, reported, ends);
    record.takes_reports(reporter.rt, step);
    reporter.tell_noticed(outstation, noticed);
}

/// A request goes to an outstation.
fn note_request<R: Wait, C: Clock>(reporter: &Reporter<'_, R, C>, outstation: u8) {
    if let Some(record) = reporter.peers.outstation(outstation) {
        record.figures.lock(reporter.rt).note_request();
    }
}

/// The request to an outstation wasn't answered in time, as the step of this number found.
fn note_timeout<R: Wait, C: Clock>(reporter: &Reporter<'_, R, C>, step: u64, outstation: usize) {
    if let Some(record) = reporter.peers.outstations().get(outstation) {
        let wall = reporter.clock.wall();
        record.figures.lock(reporter.rt).note_timeout(step, wall);
    }
}

/// A tick closed the connections of the clients whose bit is set, since t1 had expired.
fn note_expiry<R: Wait, C: Clock>(reporter: &Reporter<'_, R, C>, closed: u8) {
    let mut left = closed;
    for record in reporter.peers.clients() {
        if left % 2 == 1 {
            record.note_expiry(reporter.rt);
        }
        left /= 2;
    }
}

/// The core counts an outstation as lost, by the step of this number.
fn note_points_lost<R: Wait, C: Clock>(reporter: &Reporter<'_, R, C>, step: u64, outstation: u8) {
    if let Some(record) = reporter.peers.outstation(outstation) {
        record.loses_points(reporter.rt, step);
    }
}

/// A fragment of an outstation with these octets was refused.
fn note_unreadable<R: Wait, C: Clock>(
    reporter: &Reporter<'_, R, C>,
    outstation: u8,
    octets: &[u8],
    fault: &AppFault,
) {
    let Some(record) = reporter.peers.outstation(outstation) else {
        return;
    };
    let (wall, fault) = (reporter.clock.wall(), Unreadable::of(fault, octets));
    let told = record
        .figures
        .lock(reporter.rt)
        .note_unreadable(wall, fault);
    if let Some(left_out) = told {
        reporter.tell(JournalEvent::FragmentRefused {
            outstation,
            fault,
            left_out,
        });
    }
}

/// An APDU of a client was taken.
fn note_apdu<R: Wait, C: Clock>(reporter: &Reporter<'_, R, C>, client: u8, kind: ApduKind) {
    if let Some(record) = reporter.peers.client(client) {
        let confirms_test = matches!(kind, ApduKind::UFormat(Signal::TestCon));
        record.hears(reporter.rt, reporter.clock.moment(), confirms_test);
    }
    match kind {
        ApduKind::UFormat(signal) => note_signal(reporter, client, signal),
        ApduKind::Unknown(asdu) => note_unknown(reporter, client, asdu),
        ApduKind::SFormat | ApduKind::Command(_) | ApduKind::Other => {}
    }
}

/// A client sent an ASDU of a type that isn't known.
fn note_unknown<R: Wait, C: Clock>(reporter: &Reporter<'_, R, C>, client: u8, asdu: UnknownAsdu) {
    let Some(record) = reporter.peers.client(client) else {
        return;
    };
    let wall = reporter.clock.wall();
    let told = record.figures.lock(reporter.rt).note_unknown(wall, asdu);
    if let Some((address, asdus)) = told {
        reporter.tell(JournalEvent::UnknownTypes {
            client,
            address,
            asdus,
        });
    }
}

/// A client is tested, where the APDUs that it is given by pumps have a TESTFR act.
fn note_test<R: Wait, C: Clock>(reporter: &Reporter<'_, R, C>, pumps: &Pumps<'_>) {
    if Apdus(pumps.apdus).any(|apdu| apdu.get(CONTROL) == Some(&TEST_ACT)) {
        if let Some(record) = reporter.peers.client(pumps.client) {
            record.tests(reporter.rt, pumps.moment);
        }
    }
}

/// A client sent the act of a U format.
fn note_signal<R: Wait, C: Clock>(reporter: &Reporter<'_, R, C>, client: u8, signal: Signal) {
    let Some(record) = reporter.peers.client(client) else {
        return;
    };
    match signal {
        Signal::StartAct => {
            if let Some(address) = record.starts(reporter.rt, reporter.clock.wall()) {
                reporter.tell(JournalEvent::TransferStarted { client, address });
            }
        }
        Signal::StopAct => {
            let (wall, moment) = (reporter.clock.wall(), reporter.clock.moment());
            if let Some(address) = record.stops(reporter.rt, wall, moment) {
                reporter.tell(JournalEvent::TransferStopped { client, address });
            }
        }
        Signal::TestAct | Signal::StartCon | Signal::StopCon | Signal::TestCon => {}
    }
}

/// Notes what the step of this number was answered, and tells of it.
fn tell_reply<R: Wait, C: Clock>(
    reporter: &Reporter<'_, R, C>,
    number: u64,
    kind: StepKind,
    reply: &Reply,
    effects: &Effects,
) {
    match (kind, reply) {
        (StepKind::Fragment(outstation), Reply::Verdict(Verdict::Accepted { end, .. })) => {
            if let Some(reported) = effects.fragment() {
                note_response(reporter, number, outstation, &reported, *end);
            }
        }
        (StepKind::Poll(outstation), Reply::Request(_)) => note_request(reporter, outstation),
        (StepKind::OutstationDown(outstation), Reply::Done) => {
            note_points_lost(reporter, number, outstation);
        }
        (StepKind::Tick, Reply::Ticked { closed }) => {
            reporter.peers.last_tick.note(reporter.clock.moment());
            note_expiry(reporter, *closed);
        }
        (StepKind::Frame(client), Reply::Taken) => {
            if let Some(kind) = effects.apdu() {
                note_apdu(reporter, client, kind);
            }
        }
        _ => {}
    }
    tell_of_controls(reporter, kind, reply, effects);
}

/// Tells what the step of this number did besides its reply.
fn tell_effects<R: Wait, C: Clock>(
    reporter: &Reporter<'_, R, C>,
    number: u64,
    kind: StepKind,
    effects: &Effects,
) {
    for outstation in effects.unanswered_outstations().iter() {
        note_timeout(reporter, number, *outstation);
    }
    if let StepKind::Frame(client) = kind {
        note_refusal(reporter, number, client, effects);
    }
    for end in effects.order_ends().iter() {
        tell_end(reporter, number, end);
    }
}

impl<'a, R: Wait, C: Clock, G: Gate> Observer for Watched<'a, R, C, G> {
    type Kept = G::Kept;

    fn keep(&self, step: &Step) -> G::Kept {
        if let Some(source) = source_of(step.kind()) {
            self.reporter.peers.sequence.begin(self.reporter.rt, source);
        }
        foresee(self.reporter, step);
        self.gate.keep(step)
    }

    fn step(
        &self,
        kept: G::Kept,
        number: u64,
        kind: StepKind,
        reply: &Result<Reply, StepFault>,
        effects: &Effects,
    ) {
        if let Ok(reply) = reply {
            tell_reply(self.reporter, number, kind, reply, effects);
            tell_effects(self.reporter, number, kind, effects);
        }
        self.gate.step(kept, number, kind, reply, effects);
        if let Some(source) = source_of(kind) {
            self.reporter.peers.sequence.end(self.reporter.rt, source);
        }
    }

    fn pumps(&self, pumps: &Pumps<'_>) {
        note_test(self.reporter, pumps);
        tell_of_commands(self.reporter, pumps);
        self.gate.pumps(pumps);
    }
}

impl<'a, R: Wait, C: Clock, G: Gate> Gate for Watched<'a, R, C, G> {
    fn at(&self, actor: usize, place: Place) {
        self.gate.at(actor, place);
    }

    fn refused(&self, outstation: u8, octets: &[u8], fault: &AppFault) {
        self.gate.refused(outstation, octets, fault);
        note_unreadable(self.reporter, outstation, octets, fault);
    }

    fn skipped(&self, outstation: u8, octets: u32) {
        self.gate.skipped(outstation, octets);
        if let Some(record) = self.reporter.peers.outstation(outstation) {
            record
                .figures
                .lock(self.reporter.rt)
                .note_skipped(u64::from(octets));
        }
    }

    fn received(&self, outstation: u8, header: &FrameHeader) {
        self.gate.received(outstation, header);
        let FrameHeader {
            control,
            source,
            destination,
        } = *header;
        if let Some(record) = self.reporter.peers.outstation(outstation) {
            let way = Way {
                source,
                destination,
            };
            record.note_frame(self.reporter.rt, control, way);
        }
    }

    fn passed_over(&self, outstation: u8, objects: u64) {
        self.gate.passed_over(outstation, objects);
        if let Some(record) = self.reporter.peers.outstation(outstation) {
            record
                .figures
                .lock(self.reporter.rt)
                .note_passed_over(objects);
        }
    }

    fn status_unanswered(&self, outstation: u8) {
        self.gate.status_unanswered(outstation);
        self.reporter
            .tell(JournalEvent::LinkStatusUnanswered { outstation });
    }

    fn stood_still(&self, milliseconds: u64) {
        self.gate.stood_still(milliseconds);
        self.reporter
            .tell(JournalEvent::HostStoodStill { milliseconds });
    }
}

/// Notes what a step is about to do.
fn foresee<R: Wait, C: Clock>(reporter: &Reporter<'_, R, C>, step: &Step) {
    match step {
        Step::Frame {
            client,
            apdu: Apdu::U(Signal::StartAct),
            ..
        } => {
            if let Some(record) = reporter.peers.client(*client) {
                record.keeps_slot(reporter.rt);
            }
        }
        Step::Fragment { response, .. } => {
            if let Some(record) = reporter.peers.outstation(response.outstation()) {
                record.reports(reporter.rt, response.reports());
            }
        }
        _ => {}
    }
}

/// From where a step comes of which others wait until it was told.
fn source_of(kind: StepKind) -> Option<StepSource> {
    match kind {
        StepKind::Frame(client) => Some(StepSource::Client(client)),
        StepKind::Fragment(outstation) => Some(StepSource::Outstation(outstation)),
        StepKind::OutstationDown(outstation) => Some(StepSource::Loss(outstation)),
        StepKind::Tick => Some(StepSource::Clock),
        StepKind::OutstationUp(_)
        | StepKind::Poll(_)
        | StepKind::ClientUp(_)
        | StepKind::ClientDown(_)
        | StepKind::Pump(_) => None,
    }
}
