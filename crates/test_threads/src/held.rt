//! A gate that holds workers until clients have taken an interrogation's termination, and one of them until others are held.

use gw_threads::{Effects, Observer, Pumps, StepKind};
use std::rt::Clock;
use std::sync::atomic::{AtomicBool, AtomicU64, Ordering};
use std::thread;
use std::time::Duration;
use test_tools::{Gate, Place, Reply, Step, StepFault};

/// How often a worker that is held looks whether it may go on, a millisecond apart.
const LOOKS: u16 = 10_000;

/// The actors, by their positions.
pub const OUTSTATION_0_READER: usize = 0;

pub const OUTSTATION_0_WRITER: usize = 1;

pub const OUTSTATION_1_READER: usize = 2;

pub const OUTSTATION_1_WRITER: usize = 3;

pub const CLIENT_0_READER: usize = 4;

pub const CLIENT_0_WRITER: usize = 5;

pub const CLIENT_1_READER: usize = 6;

pub const CLIENT_1_WRITER: usize = 7;

/// The position among a client's APDUs of the last one.
const LAST: u64 = 1;

/// Holds the reader of outstation 0 before its first step, the writer of client 0 before its first write, and the
/// reader of client 1 behind the step of its last APDU, until client 1 has taken an interrogation's termination; and
/// the reader of client 0 behind the step of its last APDU, until client 0 has taken one. The reader of client 1 is held
/// before each step until the first two are, so a lock that one of them keeps then is in its way; until outstation 0 is
/// about to be asked, so there is a request each time; and until ticks are made, which a lock that it keeps itself would
/// not let through.
#[derive(Drop)]
pub struct Held<'a, R> {
    pub rt: &'a R,
    /// Whether each client has taken it.
    pub is_served_0: &'a AtomicBool,
    pub is_served_1: &'a AtomicBool,
    /// How many APDUs of each client were stepped.
    pub stepped_0: AtomicU64,
    pub stepped_1: AtomicU64,
    /// Whether the reader of outstation 0 came to its first step, and the writers of outstation 0 and of client 0 to their
    /// first write.
    pub is_decoded: AtomicBool,
    pub is_asked: AtomicBool,
    pub is_answered: AtomicBool,
    /// How many ticks were made.
    pub ticks: AtomicU64,
    /// Whether one of them was held for too long.
    pub is_late: AtomicBool,
}

impl<'a, R> Held<'a, R> {
    /// No worker has come to the gate.
    pub fn new(rt: &'a R, is_served_0: &'a AtomicBool, is_served_1: &'a AtomicBool) -> Held<'a, R> {
        Held {
            rt,
            is_served_0,
            is_served_1,
            stepped_0: AtomicU64::new(0),
            stepped_1: AtomicU64::new(0),
            is_decoded: AtomicBool::new(false),
            is_asked: AtomicBool::new(false),
            is_answered: AtomicBool::new(false),
            ticks: AtomicU64::new(0),
            is_late: AtomicBool::new(false),
        }
    }
}

impl<'a, R: Clock> Held<'a, R> {
    /// A worker stands at its gate, which a flag tells, until client 1 is served; whether it is in time.
    fn stands(&self, flag: &AtomicBool) -> bool {
        flag.store(true, Ordering::SeqCst);
        is_set(self.rt, self.is_served_1)
    }

    /// Waits until the others stand at their gates, and outstation 0 is asked; whether they do in time.
    fn others_stand(&self) -> bool {
        is_set(self.rt, &self.is_decoded)
            && is_set(self.rt, &self.is_answered)
            && is_set(self.rt, &self.is_asked)
    }

    /// Waits until two more ticks are told: the step of the second is made from here on. Whether they are in time.
    fn is_ticked(&self) -> bool {
        let before = self.ticks.load(Ordering::SeqCst);
        for _ in 0..LOOKS {
            if self.ticks.load(Ordering::SeqCst).saturating_sub(before) >= 2 {
                return true;
            }
            thread::sleep(self.rt, Duration::from_millis(1));
        }
        false
    }

    /// A reader has decoded something. Whether it goes on in time.
    fn may_step(&self, actor: usize) -> bool {
        match actor {
            OUTSTATION_0_READER => self.stands(&self.is_decoded),
            CLIENT_1_READER => self.others_stand() && self.is_ticked(),
            _ => true,
        }
    }

    /// A reader has made a step. Whether it goes on in time.
    fn may_go_on(&self, actor: usize) -> bool {
        match actor {
            CLIENT_0_READER => self.steps(&self.stepped_0, self.is_served_0),
            CLIENT_1_READER => self.steps(&self.stepped_1, self.is_served_1),
            _ => true,
        }
    }

    /// An APDU of a client was stepped: after the last one its reader waits until the client is served. Whether it goes on in
    /// time.
    fn steps(&self, stepped: &AtomicU64, is_served: &AtomicBool) -> bool {
        stepped.fetch_add(1, Ordering::SeqCst) != LAST || is_set(self.rt, is_served)
    }

    /// A worker is about to write. Whether it goes on in time.
    fn writes(&self, actor: usize) -> bool {
        match actor {
            CLIENT_0_WRITER => self.stands(&self.is_answered),
            OUTSTATION_0_WRITER => {
                self.is_asked.store(true, Ordering::SeqCst);
                true
            }
            _ => true,
        }
    }
}

impl<'a, R> Observer for Held<'a, R> {
    type Kept = ();

    fn keep(&self, _step: &Step) {}

    fn step(
        &self,
        _kept: (),
        _number: u64,
        _kind: StepKind,
        reply: &Result<Reply, StepFault>,
        _effects: &Effects,
    ) {
        if let Ok(Reply::Ticked { .. }) = reply {
            self.ticks.fetch_add(1, Ordering::SeqCst);
        }
    }

    fn pumps(&self, _pumps: &Pumps<'_>) {}
}

impl<'a, R: Clock> Gate for Held<'a, R> {
    fn at(&self, actor: usize, place: Place) {
        // The test has failed: nobody is held any more.
        if self.is_late.load(Ordering::SeqCst) {
            return;
        }
        let is_in_time = match place {
            Place::Decoded => self.may_step(actor),
            Place::Stepped => self.may_go_on(actor),
            Place::BeforeWrite => self.writes(actor),
        };
        if !is_in_time {
            self.is_late.store(true, Ordering::SeqCst);
        }
    }
}

/// Waits until a flag is set, but not for ever; whether it is.
fn is_set<R: Clock>(rt: &R, flag: &AtomicBool) -> bool {
    for _ in 0..LOOKS {
        if flag.load(Ordering::SeqCst) {
            return true;
        }
        thread::sleep(rt, Duration::from_millis(1));
    }
    false
}
