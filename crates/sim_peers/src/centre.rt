//! A control centre (IEC 60870-5-104).

use crate::log::Log;
use crate::pipe::Pipe;
use crate::random::Random;
use crate::scenario::{Number, Scenario};
use crate::site::{FIRST_COMMON, FIRST_CONTROL};
use iec_apci::{Apdu, ApduFeed, Signal};
use std::alloc::Global;

/// The octets of U formats.
const START_ACT: [u8; 6] = [0x68, 4, 0x07, 0, 0, 0];

const STOP_ACT: [u8; 6] = [0x68, 4, 0x13, 0, 0, 0];

const TEST_ACT: [u8; 6] = [0x68, 4, 0x43, 0, 0, 0];

const TEST_CON: [u8; 6] = [0x68, 4, 0x83, 0, 0, 0];

/// Causes of transmission.
const ACTIVATION: u8 = 6;

/// The milliseconds behind which the centre asks whether the connection is alive.
const TEST_MS: u64 = 20_000;

/// The milliseconds for which an order is waited for.
const ORDER_MS: u64 = 60_000;

/// How many I formats the centre sends without an acknowledgement.
const MOST_SENT: u16 = 10;

/// What a centre is to do when.
#[derive(Clone, Copy)]
struct Timers {
    leave: u64,
    order: u64,
    interrogation: u64,
    stop: u64,
    mute: u64,
    test: u64,
    acknowledgement: u64,
    /// When it reads on.
    read: u64,
}

/// A command for a control that isn't confirmed yet.
#[derive(Clone, Copy)]
struct Command {
    common: u16,
    address: u64,
    kind: u8,
    /// The octets of its element.
    element: [u8; 3],
    is_select: bool,
    until: u64,
}

/// A control centre.
#[derive(Drop)]
pub struct Centre {
    scenario: Scenario,
    alloc: Global,
    number: u64,
    random: Random,
    feed: ApduFeed,
    is_connected: bool,
    is_started: bool,
    /// How many STARTDT and STOPDT acts aren't confirmed yet.
    unconfirmed: u64,
    sent: u16,
    acknowledged: u16,
    received: u16,
    unacknowledged: u64,
    command: Option<Command>,
    orders: u64,
    timers: Timers,
    wants_end: bool,
}

impl Centre {
    /// A centre that isn't connected.
    pub fn new(alloc: Global, scenario: &Scenario, number: u64) -> Centre {
        Centre {
            scenario: *scenario,
            alloc,
            number,
            random: Random::new(scenario.seed, number.saturating_add(200)),
            feed: ApduFeed::new(alloc),
            is_connected: false,
            is_started: false,
            unconfirmed: 0,
            sent: 0,
            acknowledged: 0,
            received: 0,
            unacknowledged: 0,
            command: None,
            orders: 0,
            timers: never(),
            wants_end: false,
        }
    }

    /// Connects, and starts the data transfer.
    pub fn connect(&mut self, now: u64, way: &mut Pipe) {
        self.feed = ApduFeed::new(self.alloc);
        self.is_connected = true;
        self.is_started = false;
        self.unconfirmed = 0;
        (self.sent, self.acknowledged, self.received) = (0, 0, 0);
        self.unacknowledged = 0;
        self.command = None;
        self.wants_end = false;
        self.timers = Timers {
            leave: self.next(now, Number::LeaveS),
            stop: self.next(now, Number::StopS),
            mute: self.next(now, Number::MuteS),
            test: now.saturating_add(TEST_MS),
            read: now,
            ..never()
        };
        self.signal(now, &START_ACT, way);
    }

    /// Starts or stops the data transfer, which is to be confirmed.
    fn signal(&mut self, now: u64, act: &[u8; 6], way: &mut Pipe) {
        self.unconfirmed = self.unconfirmed.saturating_add(1);
        way.send(now, act.as_slice(), 0);
    }

    /// The connection has ended.
    pub fn disconnect(&mut self) {
        self.is_connected = false;
        self.is_started = false;
        self.command = None;
        self.timers = never();
    }

    /// Whether it ends the connection now.
    pub fn takes_end(&mut self) -> bool {
        let wants = self.wants_end;
        self.wants_end = false;
        wants
    }

    /// When something comes next that comes once in so many seconds.
    fn next(&mut self, now: u64, seconds: Number) -> u64 {
        let mean = self.scenario.milliseconds(seconds);
        self.random.next_after(now, mean)
    }

    /// When something is due of itself.
    pub fn due(&self) -> u64 {
        let timers = &self.timers;
        let mut due = timers
            .leave
            .min(timers.stop)
            .min(timers.mute)
            .min(timers.acknowledgement)
            .min(timers.test);
        if self.is_started {
            due = due.min(timers.interrogation);
            due = due.min(match self.command {
                Some(command) => command.until,
                None => timers.order,
            });
        }
        due
    }

    /// When it reads on.
    pub fn reads_at(&self) -> u64 {
        self.timers.read
    }

    /// Does what is due at a moment.
    pub fn act(&mut self, now: u64, way: &mut Pipe, log: &Log<'_>) {
        if !self.is_connected {
            return;
        }
        if self.timers.leave <= now {
            self.timers.leave = u64::MAX;
            self.wants_end = true;
            return;
        }
        if self.timers.mute <= now {
            self.timers.mute = self.next(now, Number::MuteS);
            let spell = self.scenario.of(Number::T1Ms).saturating_mul(2);
            self.timers.read = now.saturating_add(self.random.below(spell));
            log.add("mute", &[self.number, self.timers.read]);
        }
        if self.timers.read > now {
            self.wait_for_reading();
            return;
        }
        self.keep_alive(now, way, log);
        if self.is_started {
            self.work(now, way, log);
        }
    }

    /// While it doesn't read, it sends nothing either.
    fn wait_for_reading(&mut self) {
        let read = self.timers.read;
        let timers = &mut self.timers;
        timers.acknowledgement = later(timers.acknowledgement, read);
        timers.test = later(timers.test, read);
        timers.stop = later(timers.stop, read);
        timers.interrogation = later(timers.interrogation, read);
        timers.order = later(timers.order, read);
        if let Some(command) = &mut self.command {
            command.until = later(command.until, read);
        }
    }

    /// Sends what keeps the connection alive, and stops the data transfer.
    fn keep_alive(&mut self, now: u64, way: &mut Pipe, log: &Log<'_>) {
        if self.timers.acknowledgement <= now {
            self.acknowledge(now, way);
        }
        if self.timers.test <= now {
            self.timers.test = now.saturating_add(TEST_MS);
            way.send(now, &TEST_ACT, 0);
        }
        if self.timers.stop <= now {
            self.timers.stop = self.next(now, Number::StopS);
            if self.is_started {
                self.acknowledge(now, way);
                self.signal(now, &STOP_ACT, way);
                self.is_started = false;
                self.command = None;
                log.add("stop", &[self.number]);
            } else {
                // Perhaps before its STOPDT or its last STARTDT is confirmed.
                self.signal(now, &START_ACT, way);
            }
        }
    }

    /// Sends what it asks and orders.
    fn work(&mut self, now: u64, way: &mut Pipe, log: &Log<'_>) {
        if self.timers.interrogation <= now {
            self.timers.interrogation = self.next(now, Number::InterrogateS);
            self.interrogate(now, way, log);
        }
        match self.command {
            Some(command) => {
                if command.until <= now {
                    self.command = None;
                    log.add("unconfirmed", &[self.number]);
                }
            }
            None => {
                if self.timers.order <= now {
                    self.timers.order = self.next(now, Number::OrderS);
                    self.order(now, way, log);
                }
            }
        }
    }

    /// Interrogates an outstation's common address, or all of them.
    fn interrogate(&mut self, now: u64, way: &mut Pipe, log: &Log<'_>) {
        let common = if self.random.happens(400) {
            0xFFFF
        } else {
            self.some_common()
        };
        let [low, high] = common.to_le_bytes();
        let asdu = [100, 1, ACTIVATION, 0, low, high, 0, 0, 0, 20];
        if self.send(now, &asdu, way) {
            log.add("interrogate", &[self.number, u64::from(common)]);
        }
    }

    /// The common address of one of the outstations.
    fn some_common(&mut self) -> u16 {
        let outstation = self.random.below(self.scenario.outstations());
        FIRST_COMMON.saturating_add(u16::try_from(outstation).unwrap_or(0))
    }

    /// Commands a control: selects it first, if that is wanted.
    fn order(&mut self, now: u64, way: &mut Pipe, log: &Log<'_>) {
        let control = self.random.below(self.scenario.controls());
        let common = self.some_common();
        self.orders = self.orders.wrapping_add(1);
        let number = self
            .number
            .wrapping_mul(3000)
            .wrapping_add(self.orders % 3000);
        let [low, high, ..] = number.to_le_bytes();
        let on = u8::from(self.random.happens(500));
        let (kind, element) = match control % 3 {
            0 => (45, [on, 0, 0]),
            1 => (46, [on.wrapping_add(1), 0, 0]),
            _ => (49, [low, high, 0]),
        };
        let command = Command {
            common,
            address: FIRST_CONTROL.saturating_add(control),
            kind,
            element,
            is_select: self.scenario.of(Number::Select) != 0,
            until: now.saturating_add(ORDER_MS),
        };
        self.give(now, command, way, log);
    }

    /// Sends a command.
    fn give(&mut self, now: u64, command: Command, way: &mut Pipe, log: &Log<'_>) {
        let origin = u8::try_from(self.number).unwrap_or(0);
        let asdu = asdu_of(&command, origin);
        // A set point has two octets more than other commands.
        let count = if command.kind == 49 { 12 } else { 10 };
        if !self.send(now, &asdu[..count], way) {
            return;
        }
        self.command = Some(command);
        let word = if command.is_select {
            "selects"
        } else {
            "order"
        };
        let [x, y, _] = command.element;
        log.add(
            word,
            &[
                self.number,
                u64::from(command.common),
                command.address,
                u64::from(command.kind),
                u64::from(u16::from_le_bytes([x, y])),
            ],
        );
    }

    /// Sends an I format, unless too many wait for their acknowledgement; whether it does.
    fn send(&mut self, now: u64, asdu: &[u8], way: &mut Pipe) -> bool {
        if self.sent.wrapping_sub(self.acknowledged) & 0x7FFF >= MOST_SENT {
            return false;
        }
        let [a, b] = (self.sent << 1).to_le_bytes();
        let [c, d] = (self.received << 1).to_le_bytes();
        let mut apdu = [0; 32];
        let length = u8::try_from(asdu.len()).unwrap_or(0).saturating_add(4);
        let header = [0x68, length, a, b, c, d];
        let mut end: usize = 0;
        for (octet, given) in apdu.iter_mut().zip(header.iter().chain(asdu.iter())) {
            *octet = *given;
            end = end.saturating_add(1);
        }
        way.send(now, &apdu[..end.min(32)], 0);
        self.sent = self.sent.wrapping_add(1) & 0x7FFF;
        self.unacknowledged = 0;
        self.timers.acknowledgement = u64::MAX;
        true
    }

    /// Acknowledges what was received.
    fn acknowledge(&mut self, now: u64, way: &mut Pipe) {
        self.unacknowledged = 0;
        self.timers.acknowledgement = u64::MAX;
        let [low, high] = (self.received << 1).to_le_bytes();
        way.send(now, &[0x68, 4, 1, 0, low, high], 0);
    }

    /// Octets come from the gateway.
    pub fn take(&mut self, now: u64, octets: &[u8], way: &mut Pipe, log: &Log<'_>) {
        let slow = self.scenario.of(Number::SlowMs);
        self.timers.read = now.saturating_add(slow);
        if self.feed.feed(octets).is_err() {
            return;
        }
        for _ in 0..octets.len().saturating_add(1) {
            let Some(answer) = self.feed.next() else {
                return;
            };
            match answer {
                Ok(apdu) => self.take_apdu(now, apdu, way, log),
                Err(_) => {
                    log.add("no_apdu", &[self.number]);
                    return;
                }
            }
        }
    }

    /// An APDU comes.
    fn take_apdu(&mut self, now: u64, apdu: Apdu, way: &mut Pipe, log: &Log<'_>) {
        match apdu {
            Apdu::I { ns, nr, asdu } => {
                self.acknowledged = nr;
                self.take_numbered(now, ns, log);
                self.take_asdu(now, asdu.as_slice(), way, log);
                if self.unacknowledged >= self.scenario.w() {
                    self.acknowledge(now, way);
                }
            }
            Apdu::S { nr } => self.acknowledged = nr,
            Apdu::U(signal) => self.take_signal(now, signal, way, log),
        }
    }

    /// An I format of a number comes.
    fn take_numbered(&mut self, now: u64, number: u16, log: &Log<'_>) {
        if number != self.received {
            log.add("gap", &[self.number, u64::from(number)]);
        }
        self.received = number.wrapping_add(1) & 0x7FFF;
        self.unacknowledged = self.unacknowledged.saturating_add(1);
        if self.unacknowledged == 1 {
            self.timers.acknowledgement = now.saturating_add(self.scenario.t2_ms());
        }
    }

    /// A U format comes.
    fn take_signal(&mut self, now: u64, signal: Signal, way: &mut Pipe, log: &Log<'_>) {
        match signal {
            Signal::StartCon => {
                self.unconfirmed = self.unconfirmed.saturating_sub(1);
                log.add("started", &[self.number]);
                // The last act is the one that counts.
                if self.unconfirmed == 0 {
                    self.is_started = true;
                    self.timers.order = self.next(now, Number::OrderS);
                    self.timers.interrogation = now;
                }
            }
            Signal::TestAct => way.send(now, &TEST_CON, 0),
            Signal::StopCon => {
                self.unconfirmed = self.unconfirmed.saturating_sub(1);
                log.add("stopped", &[self.number]);
            }
            Signal::StartAct | Signal::StopAct | Signal::TestCon => {}
        }
    }

    /// An ASDU comes.
    fn take_asdu(&mut self, now: u64, octets: &[u8], way: &mut Pipe, log: &Log<'_>) {
        let (kind, count, cause, common) = match octets {
            [kind, count, cause, _, low, high, ..] => {
                (*kind, *count, *cause, u16::from_le_bytes([*low, *high]))
            }
            _ => return,
        };
        let objects = &octets[6.min(octets.len())..];
        match kind {
            45..=49 => {
                let address = number_in(objects, 0, 3);
                let numbers = [
                    self.number,
                    u64::from(common),
                    address,
                    u64::from(kind),
                    u64::from(cause),
                ];
                log.add("answer", &numbers);
                self.take_answer(now, cause, way, log);
            }
            100 => log.add(
                "interrogated",
                &[self.number, u64::from(common), u64::from(cause)],
            ),
            _ => self.take_told(kind, count, cause, common, objects, log),
        }
    }

    /// A command comes back.
    fn take_answer(&mut self, now: u64, cause: u8, way: &mut Pipe, log: &Log<'_>) {
        let Some(command) = self.command else {
            return;
        };
        // The termination belongs to the order before.
        if cause & 0x3F == 10 {
            return;
        }
        self.command = None;
        if command.is_select && cause == 7 {
            let execute = Command {
                is_select: false,
                until: now.saturating_add(ORDER_MS),
                ..command
            };
            self.give(now, execute, way, log);
        }
    }

    /// Observations come. One line tells of them: the address, the value and the quality of each.
    fn take_told(
        &self,
        kind: u8,
        count: u8,
        cause: u8,
        common: u16,
        objects: &[u8],
        log: &Log<'_>,
    ) {
        let mut told = Vec::new(self.alloc);
        let _ = told.extend_from_slice(&[
            self.number,
            u64::from(common),
            u64::from(cause),
            u64::from(kind),
        ]);
        let element: usize = if kind == 33 { 12 } else { 5 };
        let is_sequence = count & 0x80 != 0;
        let mut rest = objects;
        let mut address = number_in(rest, 0, 3);
        if is_sequence {
            rest = &rest[3.min(rest.len())..];
        }
        for _ in 0..count & 0x7F {
            if !is_sequence {
                address = number_in(rest, 0, 3);
                rest = &rest[3.min(rest.len())..];
            }
            let value = number_in(rest, 0, 4);
            let _ = told.extend_from_slice(&[address, value, number_in(rest, 4, 1)]);
            rest = &rest[element.min(rest.len())..];
            address = address.saturating_add(1);
        }
        log.add("told", told.as_slice());
    }
}

/// The octets of a command's ASDU, and perhaps two zeros.
fn asdu_of(command: &Command, origin: u8) -> [u8; 12] {
    let select = if command.is_select { 0x80 } else { 0 };
    let [low, high] = command.common.to_le_bytes();
    let [a, b, c, ..] = command.address.to_le_bytes();
    let [x, y, z] = command.element;
    let (x, z) = if command.kind == 49 {
        (x, z | select)
    } else {
        (x | select, z)
    };
    [
        command.kind,
        1,
        ACTIVATION,
        origin,
        low,
        high,
        a,
        b,
        c,
        x,
        y,
        z,
    ]
}

/// Nothing is due.
fn never() -> Timers {
    Timers {
        leave: u64::MAX,
        order: u64::MAX,
        interrogation: u64::MAX,
        stop: u64::MAX,
        mute: u64::MAX,
        test: u64::MAX,
        acknowledgement: u64::MAX,
        read: 0,
    }
}

/// The later one of two moments, unless the first is never.
fn later(moment: u64, least: u64) -> u64 {
    moment.max(least)
}

/// The number in so many octets from a position on, the lowest first.
fn number_in(octets: &[u8], position: usize, count: usize) -> u64 {
    let mut number: u64 = 0;
    let mut weight: u64 = 1;
    for octet in octets.iter().skip(position).take(count) {
        number = number.saturating_add(u64::from(*octet).saturating_mul(weight));
        weight = weight.saturating_mul(256);
    }
    number
}
