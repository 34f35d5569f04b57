//! What the gateway's workers do, as lines.

use dnp_app::AppFault;
use gw_threads::{
    ApduKind, Effects, FrameHeader, Gate, Observer, OrderEnd, Place, Pumps, Reply, Step, StepFault,
    StepKind, Verdict,
};
use sim_peers::Log;

/// What is told of a client's APDU in place of the function of a U format: that it is an S format, an I format with a command
/// that operates a control, or another I format.
const S_FORMAT: u64 = 1;

const COMMAND: u64 = 2;

const OTHER: u64 = 0;

/// Who is told of the steps that workers make, and adds lines of them to the log.
#[derive(Drop)]
pub struct Witness<'a> {
    log: &'a Log<'a>,
}

impl<'a> Witness<'a> {
    /// One that adds lines to a log.
    pub fn new(log: &'a Log<'a>) -> Witness<'a> {
        Witness { log }
    }

    /// A client's APDU was taken, or closed its connection.
    fn frame(&self, client: u8, reply: &Result<Reply, StepFault>, effects: &Effects) {
        let client = u64::from(client);
        let acknowledged = effects.acknowledged_count() as u64;
        if let Ok(Reply::Taken) = reply {
            let signal = match effects.apdu() {
                Some(ApduKind::UFormat(signal)) => u64::from(signal as u8),
                Some(ApduKind::SFormat) => S_FORMAT,
                Some(ApduKind::Command(_)) => COMMAND,
                _ => OTHER,
            };
            self.log.add("took", &[client, acknowledged, signal]);
        }
        if let Some(judged) = effects.command() {
            let refusal = u64::from(judged.refusal.is_some());
            let number = gw_threads::order_accepted(effects).unwrap_or(0);
            self.log.add("judged", &[client, number, refusal]);
        }
    }

    /// A request was given.
    fn poll(&self, outstation: u8, reply: &Result<Reply, StepFault>) {
        if let Ok(Reply::Request(request)) = reply {
            let function = request.as_slice().get(1).copied().unwrap_or(0);
            let order = request.bond.unwrap_or(0);
            self.log.add(
                "asked",
                &[u64::from(outstation), u64::from(function), order],
            );
        }
    }

    /// A fragment was judged.
    fn fragment(&self, outstation: u8, reply: &Result<Reply, StepFault>, effects: &Effects) {
        if let Some(reported) = effects.fragment() {
            let answers = u64::from(reported.answers.is_some());
            let observations = reported.observations as u64;
            let ends = matches!(
                reply,
                Ok(Reply::Verdict(Verdict::Accepted { end: true, .. }))
            );
            let numbers = [
                u64::from(outstation),
                answers,
                observations,
                effects.news(),
                u64::from(ends),
            ];
            self.log.add("accepted", &numbers);
        } else if let Ok(Reply::Verdict(Verdict::Repeated { .. })) = reply {
            self.log.add("repeated", &[u64::from(outstation)]);
        }
    }

    /// Time has passed: clients may have been closed.
    fn tick(&self, reply: &Result<Reply, StepFault>) {
        if let Ok(Reply::Ticked { closed }) = reply {
            if *closed != 0 {
                self.log.add("expired", &[u64::from(*closed)]);
            }
        }
    }

    /// An order has ended.
    fn end(&self, end: &OrderEnd) {
        self.log.add(
            "fate",
            &[end.outstation as u64, u64::from(end.client), end.order],
        );
    }
}

impl<'a> Observer for Witness<'a> {
    type Kept = ();

    fn keep(&self, _step: &Step) {}

    fn step(
        &self,
        _kept: (),
        _number: u64,
        kind: StepKind,
        reply: &Result<Reply, StepFault>,
        effects: &Effects,
    ) {
        if reply.is_err() {
            return;
        }
        match kind {
            StepKind::Frame(client) => self.frame(client, reply, effects),
            StepKind::Poll(outstation) => self.poll(outstation, reply),
            StepKind::Fragment(outstation) => self.fragment(outstation, reply, effects),
            StepKind::Tick => self.tick(reply),
            _ => {}
        }
        for outstation in effects.unanswered_outstations() {
            self.log.add("unanswered", &[*outstation as u64]);
        }
        for end in effects.order_ends() {
            self.end(end);
        }
        for (client, dropped) in effects.dropped_counts().iter().enumerate() {
            if *dropped > 0 {
                self.log.add("dropped", &[client as u64, *dropped]);
            }
        }
    }

    fn pumps(&self, pumps: &Pumps<'_>) {
        let mut counts = Counts::none();
        let mut rest = pumps.apdus;
        for _ in 0..pumps.apdus.len() {
            let [_, length, control, ..] = rest else {
                break;
            };
            counts.add(*control);
            let length = usize::from(*length).saturating_add(2).min(rest.len());
            rest = &rest[length..];
        }
        if !pumps.apdus.is_empty() {
            let numbers = [
                u64::from(pumps.client),
                counts.numbered,
                counts.tests,
                counts.confirmations,
                counts.acknowledgements,
                u64::from(pumps.end.is_none()),
            ];
            self.log.add("gave", &numbers);
        }
    }
}

/// How many APDUs of each kind were put out: I formats, TESTFR acts, confirmations, S formats.
#[derive(Clone, Copy)]
struct Counts {
    numbered: u64,
    tests: u64,
    confirmations: u64,
    acknowledgements: u64,
}

impl Counts {
    /// None.
    fn none() -> Counts {
        Counts {
            numbered: 0,
            tests: 0,
            confirmations: 0,
            acknowledgements: 0,
        }
    }

    /// One more, by the first octet of its control field.
    fn add(&mut self, control: u8) {
        if control & 1 == 0 {
            self.numbered = self.numbered.saturating_add(1);
        } else if control & 2 == 0 {
            self.acknowledgements = self.acknowledgements.saturating_add(1);
        } else if control == 0x43 {
            self.tests = self.tests.saturating_add(1);
        } else {
            self.confirmations = self.confirmations.saturating_add(1);
        }
    }
}

impl<'a> Gate for Witness<'a> {
    fn at(&self, _actor: usize, _place: Place) {}

    fn refused(&self, outstation: u8, _octets: &[u8], _fault: &AppFault) {
        self.log.add("refused", &[u64::from(outstation)]);
    }

    fn skipped(&self, outstation: u8, octets: u32) {
        self.log
            .add("skipped", &[u64::from(outstation), u64::from(octets)]);
    }

    fn received(&self, outstation: u8, _header: &FrameHeader) {
        self.log.add("frame", &[u64::from(outstation)]);
    }

    fn status_unanswered(&self, outstation: u8) {
        self.log.add("mute_link", &[u64::from(outstation)]);
    }

    fn stood_still(&self, milliseconds: u64) {
        self.log.add("stood_still", &[milliseconds]);
    }
}
