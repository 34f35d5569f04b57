//! How peers keep up: whether clients have room for what outstations bring, and when outstations are let rest.

use crate::holdback::{Holdback, Load};
use crate::streak::{AskedFor, RequestStreak};
use gw_model::{CLIENTS, OUTSTATIONS};
use gw_steps::{Effects, Machine, Reply, Reported, StepFault, StepKind, Verdict};

/// The milliseconds in which a client counts as one that reads, behind the last APDU that it was given, and behind its last
/// acknowledgement of one.
const READS_MS: u64 = 2000;

/// How an outstation is served.
#[derive(Clone, Copy)]
struct Service {
    holdback: Holdback,
    streak: RequestStreak,
}

impl Service {
    /// Of an outstation that was just connected.
    fn new() -> Service {
        Service {
            holdback: Holdback::new(),
            streak: RequestStreak::new(),
        }
    }

    /// A fragment was accepted at a moment, which brought so many news; where it ends an answer, a further request is due, or
    /// none.
    fn accept(&mut self, reported: Reported, moment: u64, news: u64, ends: bool, is_due: bool) {
        self.holdback.take(reported.observations as u64);
        if reported.is_unsolicited {
            return;
        }
        if reported.events > 0 || news > 0 {
            self.streak.end();
        }
        if ends {
            self.streak.answer(moment, reported.indications[0], is_due);
        }
    }
}

/// For each client the moment at which it was last given an APDU, or acknowledged one, and how each outstation is served.
#[derive(Clone, Copy)]
pub struct Pacing {
    read: [Option<u64>; CLIENTS as usize],
    services: [Service; OUTSTATIONS as usize],
}

impl Pacing {
    /// No client was given any, and no outstation asked.
    pub fn new() -> Pacing {
        Pacing {
            read: [None; CLIENTS as usize],
            services: [Service::new(); OUTSTATIONS as usize],
        }
    }

    /// A client was given an APDU at a moment, or acknowledged one.
    pub fn note(&mut self, client: u8, moment: u64) {
        if let Some(read) = self.read.get_mut(usize::from(client)) {
            *read = Some(moment);
        }
    }

    /// A step of a moment was answered so, and did this besides.
    pub fn settle(
        &mut self,
        kind: StepKind,
        moment: u64,
        reply: &Result<Reply, StepFault>,
        effects: &Effects,
    ) {
        match kind {
            StepKind::Frame(client) => {
                if matches!(reply, Ok(Reply::Taken)) && effects.acknowledged_count() > 0 {
                    self.note(client, moment);
                }
            }
            StepKind::Poll(outstation) => self.settle_request(outstation, moment, reply, effects),
            StepKind::Fragment(outstation) => {
                self.settle_fragment(outstation, moment, reply, effects);
            }
            StepKind::OutstationUp(outstation) | StepKind::OutstationDown(outstation) => {
                self.settle_turn(outstation);
            }
            StepKind::ClientUp(_) | StepKind::ClientDown(_) | StepKind::Pump(_) | StepKind::Tick =>
                {}
        }
    }

    /// A request for an outstation was given, or none.
    fn settle_request(
        &mut self,
        outstation: u8,
        moment: u64,
        reply: &Result<Reply, StepFault>,
        effects: &Effects,
    ) {
        let Some(service) = self.services.get_mut(usize::from(outstation)) else {
            return;
        };
        if let (Ok(Reply::Request(_)), Some(task)) = (reply, effects.task()) {
            service.streak.ask(AskedFor::by(task), moment);
        }
    }

    /// A fragment was taken, or wasn't.
    fn settle_fragment(
        &mut self,
        outstation: u8,
        moment: u64,
        reply: &Result<Reply, StepFault>,
        effects: &Effects,
    ) {
        let Some(service) = self.services.get_mut(usize::from(outstation)) else {
            return;
        };
        match (reply, effects.fragment()) {
            (Ok(Reply::Verdict(Verdict::Accepted { end, .. })), Some(reported)) => {
                let is_due = !effects.due_outstations().is_empty();
                service.accept(reported, moment, effects.news(), *end, is_due);
            }
            _ => service.holdback.let_go(),
        }
    }

    /// An outstation came up, or was lost.
    fn settle_turn(&mut self, outstation: u8) {
        if let Some(service) = self.services.get_mut(usize::from(outstation)) {
            *service = Service::new();
        }
    }

    /// Whether a fragment is to wait, since a client that reads has no room for what it brings. Where none lacks room, it is
    /// kept until a fragment of its outstation is taken.
    pub fn is_outrun<M: Machine>(&mut self, load: Load, machine: &M, moment: u64) -> bool {
        let lacks_room = self.lack_room(load.outstation, load.size, machine, moment);
        let has_order = has_order(load.outstation, machine);
        match self.services.get_mut(usize::from(load.outstation)) {
            Some(service) => service.holdback.waits(load, moment, lacks_room, has_order),
            None => false,
        }
    }

    /// For how many milliseconds an outstation isn't to be asked at a moment; then it is to be looked again. It rests behind a
    /// streak of requests, and while a client that reads has no room for as much as it brought last; but not where no request
    /// is due, nor where it has an order that waits or is under way.
    pub fn rest<M: Machine>(&mut self, outstation: u8, machine: &M, moment: u64) -> u64 {
        let may_rest = machine.is_poll_due(outstation) && !has_order(outstation, machine);
        let brought = self.last_count(outstation);
        let lacks_room = may_rest && self.lack_room(outstation, brought, machine, moment);
        let Some(service) = self.services.get_mut(usize::from(outstation)) else {
            return 0;
        };
        let rest = service.holdback.rest_at(moment, lacks_room);
        if may_rest {
            rest.max(service.streak.rest_at(moment))
        } else {
            0
        }
    }

    /// How many observations an outstation brought last.
    fn last_count(&self, outstation: u8) -> u64 {
        match self.services.get(usize::from(outstation)) {
            Some(service) => service.holdback.last_count(),
            None => 0,
        }
    }

    /// Whether a client that reads at a moment has no room for so many observations of an outstation.
    fn lack_room<M: Machine>(&self, outstation: u8, size: u64, machine: &M, moment: u64) -> bool {
        let kept = self.kept_for_others(outstation, size, moment);
        for (client, read) in (0..CLIENTS).zip(self.read) {
            if reads(read, moment) && lacks_room(client, size, kept, machine) {
                return true;
            }
        }
        false
    }

    /// For how many observations of others an outstation that brings so many has to leave room at a moment.
    fn kept_for_others(&self, outstation: u8, size: u64, moment: u64) -> u64 {
        let began = match self.services.get(usize::from(outstation)) {
            Some(service) => service.holdback.began(moment),
            None => moment,
        };
        let mut kept: u64 = 0;
        for (other, service) in (0..OUTSTATIONS).zip(&self.services) {
            if other != outstation {
                kept = kept.saturating_add(service.holdback.precedes(size, began));
            }
        }
        kept
    }
}

/// Whether a client that was last given an APDU then, or acknowledged one, counts as one that reads.
fn reads(read: Option<u64>, moment: u64) -> bool {
    match read {
        Some(read) => moment.saturating_sub(read) < READS_MS,
        None => false,
    }
}

/// Whether a client has no room for so many observations, where some is left for others. One for which nothing waits has.
fn lacks_room<M: Machine>(client: u8, size: u64, kept: u64, machine: &M) -> bool {
    let waiting = (machine.queued(client) as u64).saturating_add(kept);
    size > 0 && waiting > 0 && waiting.saturating_add(size) > u64::from(machine.queue_limit())
}

/// Whether an order for an outstation waits, or is under way.
fn has_order<M: Machine>(outstation: u8, machine: &M) -> bool {
    match machine.outgoing().get(usize::from(outstation)) {
        Some(outgoing) => outgoing.under_way().is_some() || !outgoing.waiting().is_empty(),
        None => false,
    }
}
