//! The numbers of a scenario.

use sim_peers::{Log, Numbers, Random, Range};

/// A number of a scenario.
#[derive(Clone, Copy)]
pub enum Number {
    /// How many control centres there are, and from how many addresses they connect.
    Centres,
    Addresses,
    /// How many of the addresses, the last ones, aren't allowed; where it is 0, no address is named that is.
    Foreign,
    /// How many connections are accepted, where that is bounded.
    Sessions,
    /// The second at which standard input ends, where it is waited for.
    EndS,
    /// The milliseconds from the end of a connection until its centre connects again.
    AwayMs,
    /// The seconds until a centre leaves, or falls silent for ever, and connects anew while its old connection still stands.
    StayS,
    DieS,
    /// The milliseconds from one S format of a centre to the next.
    TalkMs,
    /// The seconds until a centre starts data transfer, and until it stops that.
    StartS,
    StopS,
    /// The milliseconds that the confirmation of a TESTFR act takes at most, and how often in a thousand none comes.
    AnswerMs,
    Mute,
    /// The milliseconds for which a thread of the gateway that could go on stands still at most.
    HoldMs,
    /// The milliseconds that the workers of a slot take at most to come back from a connection that has ended.
    BackMs,
    /// Settings.
    T1Ms,
    T3Ms,
}

/// How many numbers there are.
const NUMBERS: usize = 17;

static RANGES: [Range; NUMBERS] = [
    ("centres", 2, 24, 0),
    ("addresses", 1, 6, 0),
    ("foreign", 1, 2, 700),
    ("sessions", 1, 60, 650),
    ("end_s", 5, 60, 600),
    ("away_ms", 20, 5000, 0),
    ("stay_s", 2, 60, 200),
    ("die_s", 3, 60, 200),
    ("talk_ms", 100, 6000, 200),
    ("start_s", 1, 20, 100),
    ("stop_s", 2, 30, 300),
    ("answer_ms", 1, 1600, 0),
    ("mute", 10, 600, 400),
    ("hold_ms", 1, 60, 400),
    ("back_ms", 1, 3000, 200),
    ("t1_ms", 1500, 15_000, 0),
    ("t3_ms", 1000, 10_000, 0),
];

/// What is played.
#[derive(Clone, Copy)]
pub struct Scenario {
    pub seed: u64,
    numbers: Numbers,
}

impl Scenario {
    /// The scenario of a seed.
    pub fn of_seed(seed: u64) -> Scenario {
        Scenario {
            seed,
            numbers: Numbers::draw(&RANGES, &mut Random::new(seed, 0)),
        }
    }

    /// The word `NAME=NUMBER` gives the number of that name its value; whether there is one.
    pub fn force(&mut self, word: &str) -> bool {
        self.numbers.force(&RANGES, word)
    }

    /// A number.
    pub fn of(&self, number: Number) -> u64 {
        self.numbers.at(number as usize)
    }

    /// A number of seconds, in milliseconds.
    pub fn milliseconds(&self, seconds: Number) -> u64 {
        self.of(seconds).saturating_mul(1000)
    }

    /// How many control centres there are.
    pub fn centres(&self) -> u64 {
        self.of(Number::Centres).max(1).min(24)
    }

    /// From how many addresses they connect.
    pub fn addresses(&self) -> u64 {
        self.of(Number::Addresses).max(1).min(8)
    }

    /// How many of these may connect, where that is said.
    pub fn allowed_addresses(&self) -> Option<u64> {
        match self.of(Number::Foreign) {
            0 => None,
            foreign => Some(self.addresses().saturating_sub(foreign).max(1)),
        }
    }

    /// How many connections are accepted, where that is bounded.
    pub fn sessions(&self) -> Option<u32> {
        match self.of(Number::Sessions) {
            0 => None,
            sessions => u32::try_from(sessions).ok(),
        }
    }

    /// When standard input ends, where that is waited for.
    pub fn end(&self) -> Option<u64> {
        match self.milliseconds(Number::EndS) {
            0 => None,
            end => Some(end),
        }
    }

    /// Tells the numbers.
    pub fn tell(&self, log: &Log<'_>) {
        self.numbers.tell(&RANGES, log);
    }
}
