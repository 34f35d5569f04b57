//! The workers of a slot, and what the watcher notes of their client.

use crate::connection::{Apdu, Wire};
use crate::scenario::Number;
use crate::stage::Stage;
use crate::timers::Timers;
use run_admission::AcceptedClient;
use run_clock::Clock;
use run_journal::{Cause, JournalEvent};
use sim_peers::Random;
use std::net::SocketAddr;
use std::sync::Wait;

/// How many slots there are.
pub const SLOTS: u8 = 8;

/// The milliseconds by which a TESTFR act is late at most, since a tick finds that it is due; and by which it is where the
/// writer waits for its socket, which is so this often in a thousand.
const TICK_MS: u64 = 100;

const BLOCKED_MS: u64 = 6000;

const BLOCKED: u64 = 100;

/// What the workers of a slot do.
#[derive(Clone, Copy)]
enum Phase {
    /// They wait for a client.
    Idle,
    /// They serve one.
    Serving,
    /// Their connection has ended, and they come back.
    Ending,
    /// They are back.
    Back,
    /// They have ended.
    Gone,
}

/// Why a connection ended, as a number.
const LEFT: u64 = 0;

const EXPIRED: u64 = 1;

const GAVE_WAY: u64 = 2;

const GATEWAY_ENDS: u64 = 3;

/// The workers of a slot.
#[derive(Drop)]
pub struct Worker {
    slot: u8,
    random: Random,
    phase: Phase,
    /// When they go on.
    at: u64,
    client: Option<AcceptedClient<Wire>>,
    /// When the reader takes what is there to be read; never, where it didn't see that something is.
    read: u64,
    /// When the step of a STARTDT act is told; never, where there is none.
    started: u64,
    timers: Timers,
    /// The record of the slot is marked, so that it is seen when it is assigned to a client.
    is_marked: bool,
}

impl Worker {
    /// Those of a slot that nobody has.
    pub fn new<R: Wait>(stage: &Stage<'_, R>, slot: u8) -> Worker {
        let mut worker = Worker {
            slot,
            random: stage.random(u64::from(slot)),
            phase: Phase::Idle,
            at: u64::MAX,
            client: None,
            read: u64::MAX,
            started: u64::MAX,
            timers: Timers::new(0, 0),
            is_marked: false,
        };
        worker.mark(stage);
        worker
    }

    /// When something is due.
    pub fn due<R: Wait>(&self, stage: &Stage<'_, R>) -> u64 {
        match self.phase {
            Phase::Serving => self.serving_due(stage),
            Phase::Idle | Phase::Ending | Phase::Back => self.at,
            Phase::Gone => u64::MAX,
        }
    }

    /// When something is due of a client that is served.
    fn serving_due<R: Wait>(&self, stage: &Stage<'_, R>) -> u64 {
        if self.started != u64::MAX {
            return self.started;
        }
        let timer = self.timers_due(stage);
        if !self.has_to_read() {
            timer
        } else if self.read == u64::MAX {
            0
        } else {
            timer.min(self.read)
        }
    }

    /// When the client is tested, or closed.
    fn timers_due<R: Wait>(&self, stage: &Stage<'_, R>) -> u64 {
        let scenario = stage.scenario;
        self.timers
            .due(scenario.of(Number::T1Ms), scenario.of(Number::T3Ms))
    }

    /// Whether an APDU or the end of the connection can be read.
    fn has_to_read(&self) -> bool {
        match &self.client {
            Some(client) => {
                client.stream.connection.is_at_end() || client.stream.connection.has_unread()
            }
            None => false,
        }
    }

    /// Does something of what is due at a moment, where no further client comes or one may; whether the slot became free.
    pub fn act<R: Wait>(
        &mut self,
        now: u64,
        stage: &Stage<'_, R>,
        is_closed: bool,
        is_stopping: bool,
    ) -> bool {
        match self.phase {
            Phase::Idle if self.at <= now => self.look(now, stage, is_closed),
            Phase::Serving => self.serve(now, stage),
            Phase::Ending if self.at <= now => self.lose(now, stage, is_stopping),
            Phase::Back if self.at <= now => {
                self.free(now, stage);
                return true;
            }
            Phase::Idle | Phase::Ending | Phase::Back | Phase::Gone => {}
        }
        false
    }

    /// Something has changed at the slots: whoever waits looks.
    pub fn wake<R: Wait>(&mut self, now: u64, stage: &Stage<'_, R>) {
        if matches!(self.phase, Phase::Idle) && self.at == u64::MAX {
            self.at = now.saturating_add(stage.hold(&mut self.random));
        }
    }

    /// Whether the slot was given to a client since it became free and that wasn't noticed.
    pub fn notices_given<R: Wait>(&mut self, stage: &Stage<'_, R>) -> bool {
        let is_given = match stage.record(self.slot) {
            Some(record) => self.is_marked && !record.has_expired(stage.rt),
            None => false,
        };
        if is_given {
            self.is_marked = false;
            stage.log.add("given", &[u64::from(self.slot)]);
        }
        is_given
    }

    /// Whether a client has the slot, or its workers aren't back.
    pub fn is_busy(&self) -> bool {
        !matches!(self.phase, Phase::Idle | Phase::Gone)
    }

    /// Marks the record of the slot.
    fn mark<R: Wait>(&mut self, stage: &Stage<'_, R>) {
        if let Some(record) = stage.record(self.slot) {
            record.note_expiry(stage.rt);
            self.is_marked = true;
        }
    }

    /// Looks whom the slot was given to.
    fn look<R: Wait>(&mut self, now: u64, stage: &Stage<'_, R>, is_closed: bool) {
        self.at = u64::MAX;
        match stage.slots.take_given(stage.rt, self.slot) {
            Some(client) => self.begin(now, stage, client),
            None if is_closed => self.phase = Phase::Gone,
            None => {}
        }
    }

    /// Begins to serve a client.
    fn begin<R: Wait>(&mut self, now: u64, stage: &Stage<'_, R>, client: AcceptedClient<Wire>) {
        let number = client.stream.connection.number;
        stage.log.add("begins", &[u64::from(self.slot), number]);
        stage.reporter.client_connected(self.slot, client.address);
        self.client = Some(client);
        self.phase = Phase::Serving;
        self.read = u64::MAX;
        self.started = u64::MAX;
        let late = self.late(stage);
        self.timers = Timers::new(now, late);
    }

    /// By how much the next TESTFR act is late.
    fn late<R: Wait>(&mut self, stage: &Stage<'_, R>) -> u64 {
        if self.random.happens(BLOCKED) {
            self.random.below(BLOCKED_MS)
        } else {
            self.random
                .below(TICK_MS)
                .saturating_add(stage.hold(&mut self.random))
        }
    }

    /// Serves the client.
    fn serve<R: Wait>(&mut self, now: u64, stage: &Stage<'_, R>) {
        if self.started != u64::MAX {
            if self.started <= now {
                self.take_start(now, stage);
            }
            return;
        }
        if self.has_to_read() {
            if self.read == u64::MAX {
                self.read = now.saturating_add(stage.hold(&mut self.random));
            }
            if self.read <= now {
                self.read = u64::MAX;
                return self.read_on(now, stage);
            }
        }
        if self.timers_due(stage) <= now {
            self.test_or_close(now, stage);
        }
    }

    /// Reads an APDU, or the end.
    fn read_on<R: Wait>(&mut self, now: u64, stage: &Stage<'_, R>) {
        let Some(client) = &self.client else {
            return;
        };
        if client.stream.connection.is_at_end() {
            return self.end(now, stage);
        }
        match client.stream.connection.read() {
            Some(Apdu::StartAct) => self.ask_start(now, stage),
            Some(Apdu::StopAct) => self.take_stop(now, stage),
            Some(Apdu::TestCon) => self.hear(now, stage, true),
            Some(Apdu::Acknowledgement) => self.hear(now, stage, false),
            None => {}
        }
    }

    /// An APDU was taken, which confirms a TESTFR act or doesn't.
    fn hear<R: Wait>(&mut self, now: u64, stage: &Stage<'_, R>, confirms: bool) {
        let late = self.late(stage);
        self.timers.hear(now, confirms, late);
        if let Some(record) = stage.record(self.slot) {
            record.hears(stage.rt, now, confirms);
        }
        let word = if confirms { "confirmed" } else { "heard" };
        stage.log.add(word, &[u64::from(self.slot)]);
    }

    /// The step of a STARTDT act is about to be made.
    fn ask_start<R: Wait>(&mut self, now: u64, stage: &Stage<'_, R>) {
        if let Some(record) = stage.record(self.slot) {
            record.keeps_slot(stage.rt);
        }
        stage.log.add("asks", &[u64::from(self.slot)]);
        self.started = now.saturating_add(stage.hold(&mut self.random));
    }

    /// It was made.
    fn take_start<R: Wait>(&mut self, now: u64, stage: &Stage<'_, R>) {
        self.started = u64::MAX;
        self.hear(now, stage, false);
        if let Some(record) = stage.record(self.slot) {
            let told = record.starts(stage.rt, stage.clock.wall());
            if let Some(address) = told {
                stage.reporter.tell(JournalEvent::TransferStarted {
                    client: self.slot,
                    address,
                });
            }
        }
        stage.log.add("started", &[u64::from(self.slot)]);
    }

    /// A STOPDT act was taken.
    fn take_stop<R: Wait>(&mut self, now: u64, stage: &Stage<'_, R>) {
        self.hear(now, stage, false);
        if let Some(record) = stage.record(self.slot) {
            let told = record.stops(stage.rt, stage.clock.wall(), now);
            if let Some(address) = told {
                stage.reporter.tell(JournalEvent::TransferStopped {
                    client: self.slot,
                    address,
                });
            }
        }
        stage.log.add("stopped", &[u64::from(self.slot)]);
    }

    /// Sends a TESTFR act, or closes the connection where one wasn't confirmed in time.
    fn test_or_close<R: Wait>(&mut self, now: u64, stage: &Stage<'_, R>) {
        let Some(record) = stage.record(self.slot) else {
            return;
        };
        if self.timers.is_tested() {
            record.note_expiry(stage.rt);
            stage.log.add("expired", &[u64::from(self.slot)]);
            return self.end(now, stage);
        }
        record.tests(stage.rt, now);
        stage.log.add("tested", &[u64::from(self.slot)]);
        self.timers.test(now);
        if let Some(client) = &self.client {
            client.stream.connection.test();
        }
    }

    /// The connection has ended.
    fn end<R: Wait>(&mut self, now: u64, stage: &Stage<'_, R>) {
        if let Some(client) = &self.client {
            client.stream.connection.end();
        }
        stage.log.add("ended", &[u64::from(self.slot)]);
        let most = stage.scenario.of(Number::BackMs).saturating_add(1);
        self.phase = Phase::Ending;
        self.at = now.saturating_add(self.random.below(most));
    }

    /// The workers come back from their connection, while the gateway is to end or isn't.
    fn lose<R: Wait>(&mut self, now: u64, stage: &Stage<'_, R>, is_stopping: bool) {
        let why = self.why(stage, is_stopping);
        let client = std::mem::replace(&mut self.client, None);
        if let Some(client) = client {
            self.tell_lost(stage, client.address, why);
        }
        stage.log.add("lost", &[u64::from(self.slot), why]);
        self.phase = Phase::Back;
        self.at = now.saturating_add(stage.hold(&mut self.random));
    }

    /// Why the connection ended.
    fn why<R: Wait>(&self, stage: &Stage<'_, R>, is_stopping: bool) -> u64 {
        let Some(record) = stage.record(self.slot) else {
            return LEFT;
        };
        if is_stopping {
            GATEWAY_ENDS
        } else if record.has_expired(stage.rt) {
            EXPIRED
        } else if record.leaves(stage.rt) {
            GAVE_WAY
        } else {
            LEFT
        }
    }

    /// Tells that the client is lost.
    fn tell_lost<R: Wait>(&self, stage: &Stage<'_, R>, address: SocketAddr, why: u64) {
        let cause = match why {
            GATEWAY_ENDS => Cause::GatewayEnds,
            GAVE_WAY => Cause::GaveWay,
            _ => Cause::EndOfInput,
        };
        stage
            .reporter
            .client_lost(self.slot, address, cause, &[0; SLOTS as usize]);
    }

    /// The workers are back.
    fn free<R: Wait>(&mut self, now: u64, stage: &Stage<'_, R>) {
        stage.slots.free(stage.reporter, self.slot);
        stage.log.add("freed", &[u64::from(self.slot)]);
        self.phase = Phase::Idle;
        self.at = now;
        self.mark(stage);
    }
}
