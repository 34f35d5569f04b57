//! The numbers of a scenario.

use crate::log::Log;
use crate::numbers::{Numbers, Range};
use crate::random::Random;

/// A number of a scenario.
#[derive(Clone, Copy)]
pub enum Number {
    /// How many outstations and control centres there are, and how many points and controls an outstation has.
    Outstations,
    Centres,
    Points,
    Controls,
    /// The milliseconds from one burst of events of an outstation to the next, and how many it has at most.
    EventMs,
    Burst,
    /// Whether the first outstation floods.
    Flood,
    /// What becomes of octets on their way (`Weather`).
    LatencyMs,
    Cut,
    StallMs,
    /// The seconds from one loss of a connection to the next: of an outstation, of a control centre.
    LoseS,
    LeaveS,
    /// The seconds from one restart of an outstation to the next.
    RestartS,
    /// The seconds from one order, interrogation, stop of the data transfer, spell without reading of a centre to the next.
    OrderS,
    InterrogateS,
    StopS,
    MuteS,
    /// The milliseconds that a centre takes to read what comes at once.
    SlowMs,
    /// How often in a thousand an outstation answers too late or never; and wrong.
    Late,
    Wrong,
    /// Whether the indications of outstations never clear that ask for the time; and whether polls are so rare that only the link
    /// is looked at.
    Nag,
    Quiet,
    /// The seconds from one jump of the wall clock to the next.
    JumpS,
    /// The milliseconds for which a worker that could go on stands still at most.
    HoldMs,
    /// Settings.
    Unsolicited,
    Sbo,
    Select,
    K,
    W,
    T1Ms,
    T3Ms,
    Queue,
    PollMs,
    IntegrityMs,
    ResponseMs,
    /// How often in a thousand an outstation repeats an unsolicited response before it could be confirmed.
    Repeat,
    /// The seconds until an outstation gets stuck, from the begin of its connection.
    StuckS,
}

/// How many numbers there are.
const NUMBERS: usize = 37;

/// How often in a thousand there are more outstations than usual, and the least and the largest number of them then.
const MANY: (u64, u64, u64) = (40, 9, 32);

/// The milliseconds from one poll to the next where they are rare.
const QUIET_POLL_MS: u64 = 200_000;

static RANGES: [Range; NUMBERS] = [
    ("outstations", 2, 8, 0),
    ("centres", 1, 8, 0),
    ("points", 2, 20, 0),
    ("controls", 1, 6, 0),
    ("event_ms", 50, 3000, 50),
    ("burst", 1, 12, 0),
    ("flood", 1, 1, 600),
    ("latency_ms", 1, 150, 100),
    ("cut", 10, 300, 300),
    ("stall_ms", 100, 8000, 500),
    ("lose_s", 20, 400, 400),
    ("leave_s", 20, 400, 400),
    ("restart_s", 30, 600, 500),
    ("order_s", 2, 60, 150),
    ("interrogate_s", 5, 200, 100),
    ("stop_s", 30, 300, 500),
    ("mute_s", 30, 300, 500),
    ("slow_ms", 5, 200, 700),
    ("late", 1, 40, 500),
    ("wrong", 1, 40, 500),
    ("nag", 1, 1, 800),
    ("quiet", 1, 1, 900),
    ("jump_s", 10, 300, 500),
    ("hold_ms", 1, 40, 500),
    ("unsolicited", 1, 1, 400),
    ("sbo", 1, 1, 500),
    ("select", 1, 1, 500),
    ("k", 2, 20, 0),
    ("w", 1, 20, 0),
    ("t1_ms", 2000, 15_000, 0),
    ("t3_ms", 2000, 20_000, 0),
    ("queue", 8, 300, 0),
    ("poll_ms", 200, 3000, 0),
    ("integrity_ms", 20_000, 600_000, 400),
    ("response_ms", 500, 5000, 0),
    ("repeat", 20, 500, 600),
    ("stuck_s", 20, 400, 700),
];

/// What is played.
#[derive(Clone, Copy)]
pub struct Scenario {
    pub seed: u64,
    numbers: Numbers,
}

impl Scenario {
    /// The scenario of a seed.
    pub fn of_seed(seed: u64) -> Scenario {
        let mut random = Random::new(seed, 0);
        let mut numbers = Numbers::draw(&RANGES, &mut random);
        let (often, least, most) = MANY;
        if random.happens(often) {
            numbers.set(Number::Outstations as usize, random.between(least, most));
        }
        Scenario { seed, numbers }
    }

    /// The word `NAME=NUMBER` gives the number of that name its value; whether there is one.
    pub fn force(&mut self, word: &str) -> bool {
        self.numbers.force(&RANGES, word)
    }

    /// A number.
    pub fn of(&self, number: Number) -> u64 {
        self.numbers.at(number as usize)
    }

    /// A number of seconds, in milliseconds.
    pub fn milliseconds(&self, seconds: Number) -> u64 {
        self.of(seconds).saturating_mul(1000)
    }

    /// How many outstations there are.
    pub fn outstations(&self) -> u64 {
        self.of(Number::Outstations).max(1).min(32)
    }

    /// How many control centres there are.
    pub fn centres(&self) -> u64 {
        self.of(Number::Centres).max(1).min(8)
    }

    /// How many points an outstation has.
    pub fn points(&self) -> u64 {
        self.of(Number::Points).max(1).min(100)
    }

    /// How many controls it has.
    pub fn controls(&self) -> u64 {
        self.of(Number::Controls).max(1).min(100)
    }

    /// w, which is k at most.
    pub fn w(&self) -> u64 {
        self.of(Number::W).min(self.of(Number::K))
    }

    /// The milliseconds from one poll for events to the next.
    pub fn poll_ms(&self) -> u64 {
        if self.of(Number::Quiet) == 0 {
            self.of(Number::PollMs)
        } else {
            QUIET_POLL_MS
        }
    }

    /// t2 is half of t1.
    pub fn t2_ms(&self) -> u64 {
        self.of(Number::T1Ms) / 2
    }

    /// Tells the numbers.
    pub fn tell(&self, log: &Log<'_>) {
        self.numbers.tell(&RANGES, log);
    }
}
