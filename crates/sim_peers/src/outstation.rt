//! A DNP3 outstation (IEEE Std 1815-2012).

mod requests;
mod responses;
mod trouble;

use crate::log::Log;
use crate::pipe::Pipe;
use crate::random::Random;
use crate::scenario::{Number, Scenario};
use crate::site::FIRST_LINK;
use dnp_link::{LinkEvent, LinkFeed};
use std::alloc::{AllocError, Global};
use std::collections::VecDeque;

/// How many events the outstation keeps.
const KEPT_EVENTS: usize = 200;

/// The function code of a response.
const RESPONSE: u8 = 0x81;

/// Bits of application control.
const WHOLE: u8 = 0xC0;

const FIN: u8 = 0x40;

const FIR: u8 = 0x80;

const CON: u8 = 0x20;

const UNS: u8 = 0x10;

/// CONTROL of a frame that asks for the status of the link.
const REQUEST_LINK_STATUS: u8 = 0xC9;

/// A change of a point.
#[derive(Clone, Copy)]
struct Event {
    point: u64,
    value: u32,
    time: u64,
}

/// The confirmation that a fragment waits for.
#[derive(Clone, Copy)]
struct Awaited {
    sequence: u8,
    is_unsolicited: bool,
    /// How many of the oldest events are in the fragment, and its number.
    count: usize,
    fragment: u64,
    until: u64,
}

/// An answer of which more fragments follow, once this one is confirmed; or a read that waits for a confirmation.
#[derive(Clone, Copy)]
struct Reading {
    sequence: u8,
    is_integrity: bool,
    /// How many events it still brings at most.
    left: usize,
}

/// An unsolicited response that is repeated as it is.
#[derive(Drop)]
struct Repetition {
    fragment: Vec<u8>,
    observations: u64,
    /// How often it is still repeated, and when next.
    left: u64,
    at: u64,
}

/// How an outstation sends.
#[derive(Clone, Copy)]
enum Sending {
    /// As it should.
    Well,
    /// Only the status of its link: it keeps its fragments for ever.
    LinkAlone,
    /// Nothing.
    Nothing,
    /// Octet by octet, so many milliseconds from one to the next.
    Trickling(u64),
}

/// An octet that is still to be sent, and how many observations the fragment brings that ends with it.
#[derive(Clone, Copy)]
struct Waiting {
    octet: u8,
    observations: u64,
}

/// What an outstation is to do when.
#[derive(Clone, Copy)]
struct Timers {
    event: u64,
    restart: u64,
    unsolicited: u64,
    /// When it gets stuck, and when the next octet goes where they trickle.
    stuck: u64,
    trickle: u64,
}

impl Timers {
    /// Those of an outstation that starts.
    fn first(scenario: &Scenario, number: u64, random: &mut Random) -> Timers {
        Timers {
            event: random.next_after(0, event_gap(scenario, number)),
            restart: random.next_after(0, scenario.milliseconds(Number::RestartS)),
            unsolicited: u64::MAX,
            stuck: u64::MAX,
            trickle: u64::MAX,
        }
    }
}

/// An outstation. Each event has a value of its own: its number.
#[derive(Drop)]
pub struct Outstation {
    alloc: Global,
    scenario: Scenario,
    number: u64,
    random: Random,
    feed: LinkFeed,
    transport: u8,
    values: Vec<u32>,
    newest: u32,
    events: VecDeque<Event>,
    awaited: Option<Awaited>,
    /// The application control of the last confirmation that was awaited, if nothing was sent since.
    last: Option<u8>,
    further: Option<Reading>,
    deferred: Option<Reading>,
    selected: [u8; 16],
    /// Until when that is selected.
    selected_until: u64,
    timers: Timers,
    fragments: u64,
    repetition: Option<Repetition>,
    /// The confirmation of the response that was repeated last, and how often it still comes.
    repeated: u8,
    owed: u64,
    sending: Sending,
    trickling: VecDeque<Waiting>,
    unsolicited_sequence: u8,
    is_enabled: bool,
    is_restarted: bool,
    has_overflowed: bool,
    wants_time: bool,
    is_connected: bool,
    wants_loss: bool,
}

impl Outstation {
    /// An outstation that has just started.
    pub fn new(alloc: Global, scenario: &Scenario, number: u64) -> Result<Outstation, AllocError> {
        let mut random = Random::new(scenario.seed, number.saturating_add(100));
        let values = Vec::from_elem(alloc, 0, scenario.points() as usize)?;
        let timers = Timers::first(scenario, number, &mut random);
        Ok(Outstation {
            alloc,
            scenario: *scenario,
            number,
            random,
            feed: LinkFeed::new(alloc),
            transport: 0,
            values,
            newest: 0,
            events: VecDeque::new(alloc),
            awaited: None,
            last: None,
            further: None,
            deferred: None,
            selected: [0; 16],
            selected_until: 0,
            timers,
            fragments: 0,
            repetition: None,
            repeated: 0,
            owed: 0,
            sending: Sending::Well,
            trickling: VecDeque::new(alloc),
            unsolicited_sequence: 0,
            is_enabled: false,
            is_restarted: true,
            has_overflowed: false,
            wants_time: true,
            is_connected: false,
            wants_loss: false,
        })
    }

    /// A connection stands.
    pub fn connect(&mut self, now: u64) {
        self.feed = LinkFeed::new(self.alloc);
        self.transport = 0;
        self.is_connected = true;
        self.wants_loss = false;
        self.forget();
        let period = self.scenario.milliseconds(Number::StuckS);
        if period > 0 {
            self.timers.stuck = self.random.next_after(now, period);
        }
    }

    /// The connection has ended.
    pub fn disconnect(&mut self) {
        self.is_connected = false;
        self.forget();
        self.owed = 0;
        self.sending = Sending::Well;
        self.trickling.clear();
        self.timers.stuck = u64::MAX;
        self.timers.trickle = u64::MAX;
    }

    /// Nothing is under way on the connection.
    fn forget(&mut self) {
        self.awaited = None;
        self.repetition = None;
        self.further = None;
        self.deferred = None;
        self.selected_until = 0;
    }

    /// Whether it sends octet by octet.
    pub fn trickles(&self) -> bool {
        matches!(self.sending, Sending::Trickling(_))
    }

    /// Whether it has just ended the connection itself.
    pub fn takes_loss(&mut self) -> bool {
        let wants = self.wants_loss;
        self.wants_loss = false;
        wants
    }

    /// Whether it may send an unsolicited response. Not while octets of the last one wait: their sequence numbers are those of every
    /// sixteenth one, so a late confirmation would be taken for that of another.
    fn may_send(&self) -> bool {
        self.is_connected
            && self.is_enabled
            && self.awaited.is_none()
            && self.further.is_none()
            && self.trickling.is_empty()
            && !self.events.is_empty()
    }

    /// When something is due of itself.
    pub fn due(&self) -> u64 {
        let timers = &self.timers;
        let mut due = timers.event.min(timers.restart).min(timers.stuck);
        due = due.min(timers.trickle);
        if let Some(awaited) = self.awaited {
            due = due.min(awaited.until);
        }
        if let Some(repetition) = &self.repetition {
            due = due.min(repetition.at);
        }
        if self.may_send() {
            due = due.min(self.timers.unsolicited);
        }
        due
    }

    /// Does what is due at a moment.
    pub fn act(&mut self, now: u64, way: &mut Pipe, log: &Log<'_>) {
        if self.timers.event <= now {
            self.change(now);
        }
        if self.timers.restart <= now {
            self.restart(now, log);
        }
        if self.timers.stuck <= now {
            self.get_stuck(now, log);
        }
        if self.timers.trickle <= now {
            self.trickle(now, way);
        }
        if let Some(awaited) = self.awaited {
            if awaited.until <= now {
                self.awaited = None;
                self.repetition = None;
                self.further = None;
                self.go_on(now, way, log);
            }
        }
        self.repeat(now, way, log);
        if self.may_send() && self.timers.unsolicited <= now {
            self.send_unsolicited(now, way, log);
        }
    }

    /// Some points change.
    fn change(&mut self, now: u64) {
        for _ in 0..self.random.between(1, self.scenario.of(Number::Burst)) {
            let point = self.random.below(self.scenario.points());
            self.change_point(point, now);
        }
        let gap = event_gap(&self.scenario, self.number);
        self.timers.event = self.random.next_after(now, gap);
    }

    /// A point changes. Where too many events wait, this one is lost.
    fn change_point(&mut self, point: u64, now: u64) {
        self.newest = self.newest.wrapping_add(1);
        let value = self.newest;
        if let Some(shown) = self.values.get_mut(point as usize) {
            *shown = value;
        }
        if self.events.len() >= KEPT_EVENTS {
            self.has_overflowed = true;
            return;
        }
        let event = Event {
            point,
            value,
            time: 1_790_000_000_000u64.saturating_add(now),
        };
        let _ = self.events.push_back(event);
        self.timers.unsolicited = self.timers.unsolicited.min(now.saturating_add(10));
    }

    /// Octets come from the master.
    pub fn take(&mut self, now: u64, octets: &[u8], way: &mut Pipe, log: &Log<'_>) {
        if self.feed.feed(octets).is_err() {
            return;
        }
        for _ in 0..octets.len().saturating_add(1) {
            match self.feed.next() {
                Some(LinkEvent::Frame(frame)) => {
                    if frame.control == REQUEST_LINK_STATUS {
                        log.add("status", &[self.number]);
                        self.answer_link(now, way);
                    }
                    if let Some((_, fragment)) = frame.user().split_first() {
                        self.request(now, fragment, way, log);
                    }
                }
                Some(LinkEvent::Skipped(_)) => log.add("garbage", &[self.number]),
                None => return,
            }
        }
    }

    /// Its link address.
    fn address(&self) -> u16 {
        FIRST_LINK.saturating_add(u16::try_from(self.number).unwrap_or(0))
    }
}

/// The milliseconds from one burst of events of an outstation to the next.
fn event_gap(scenario: &Scenario, number: u64) -> u64 {
    let gap = scenario.of(Number::EventMs);
    if number == 0 && scenario.of(Number::Flood) > 0 {
        gap.min(50)
    } else {
        gap
    }
}
