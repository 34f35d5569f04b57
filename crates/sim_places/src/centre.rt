//! A control centre.

use crate::connection::{Apdu, Connection, Wire};
use crate::registry::{Registry, is_closed};
use crate::scenario::{Number, Scenario};
use run_admission::AcceptedClient;
use sim_peers::{Log, Random};
use std::net::{IpAddr, Ipv4Addr, SocketAddr};
use std::rc::Rc;

/// The first port from which a centre connects.
const FIRST_PORT: u16 = 40_000;

/// When a centre does what.
#[derive(Clone, Copy)]
struct Plans {
    leave: u64,
    die: u64,
    talk: u64,
    /// It starts data transfer, or stops it.
    turn: u64,
    /// It confirms a TESTFR act.
    answer: u64,
}

/// Nothing is planned.
fn nothing() -> Plans {
    Plans {
        leave: u64::MAX,
        die: u64::MAX,
        talk: u64::MAX,
        turn: u64::MAX,
        answer: u64::MAX,
    }
}

/// A control centre.
#[derive(Drop)]
pub struct Centre {
    scenario: Scenario,
    number: u64,
    /// From which address it connects.
    address: u64,
    random: Random,
    connection: Option<Rc<Connection>>,
    /// When it connects.
    next: u64,
    has_started: bool,
    plans: Plans,
}

impl Centre {
    /// A centre that isn't connected.
    pub fn new(scenario: &Scenario, number: u64) -> Centre {
        let mut random = Random::new(scenario.seed, number.saturating_add(200));
        let address = random.below(scenario.addresses());
        let next = random.below(scenario.of(Number::AwayMs).saturating_add(1));
        Centre {
            scenario: *scenario,
            number,
            address,
            random,
            connection: None,
            next,
            has_started: false,
            plans: nothing(),
        }
    }

    /// When something is due.
    pub fn due(&self) -> u64 {
        let Some(connection) = &self.connection else {
            return self.next;
        };
        if is_closed(connection) || (connection.is_tested() && self.plans.answer == u64::MAX) {
            return 0;
        }
        let Plans {
            leave,
            die,
            talk,
            turn,
            answer,
        } = self.plans;
        leave.min(die).min(talk).min(turn).min(answer)
    }

    /// Does what is due at a moment; its connection, where it makes one.
    pub fn act(
        &mut self,
        now: u64,
        registry: &mut Registry,
        log: &Log<'_>,
    ) -> Option<AcceptedClient<Wire>> {
        if self.connection.is_none() {
            return if self.next <= now {
                self.connect(now, registry, log)
            } else {
                None
            };
        }
        if !self.loses(now) {
            self.go_on(now, log);
        }
        None
    }

    /// Its connection is closed, if it is; whether it is.
    fn loses(&mut self, now: u64) -> bool {
        let is_lost = match &self.connection {
            Some(connection) => is_closed(connection),
            None => false,
        };
        if is_lost {
            self.forget(now);
        }
        is_lost
    }

    /// It has no connection any more, and makes one later.
    fn forget(&mut self, now: u64) {
        let away = self.scenario.of(Number::AwayMs);
        self.connection = None;
        self.next = self.random.next_after(now, away.max(1));
        self.plans = nothing();
    }

    /// Connects.
    fn connect(
        &mut self,
        now: u64,
        registry: &mut Registry,
        log: &Log<'_>,
    ) -> Option<AcceptedClient<Wire>> {
        self.next = self.random.next_after(now, 1000);
        let (stream, connection) = registry.open()?;
        log.add("came", &[connection.number, self.number, self.address]);
        let address = self.socket_address(connection.number);
        self.connection = Some(connection);
        self.has_started = false;
        self.plans = Plans {
            leave: self.next_in(now, Number::StayS),
            die: self.next_in(now, Number::DieS),
            talk: self
                .random
                .next_after(now, self.scenario.of(Number::TalkMs)),
            turn: self.first_turn(now),
            answer: u64::MAX,
        };
        Some(AcceptedClient { stream, address })
    }

    /// Where a connection comes from.
    fn socket_address(&self, number: u64) -> SocketAddr {
        let third = u8::try_from(self.address).unwrap_or(0);
        let port = u16::try_from(number % 20_000).unwrap_or(0);
        let address = IpAddr::V4(Ipv4Addr::new(10, 0, third, 1));
        SocketAddr::new(address, FIRST_PORT.saturating_add(port))
    }

    /// When it starts data transfer first: half of the time at once, where it ever does.
    fn first_turn(&mut self, now: u64) -> u64 {
        let next = self.next_in(now, Number::StartS);
        if next != u64::MAX && self.random.happens(500) {
            now
        } else {
            next
        }
    }

    /// When something comes next that comes once in so many seconds.
    fn next_in(&mut self, now: u64, seconds: Number) -> u64 {
        let mean = self.scenario.milliseconds(seconds);
        self.random.next_after(now, mean)
    }

    /// Sends an APDU.
    fn send(&self, apdu: Apdu) {
        if let Some(connection) = &self.connection {
            connection.send(apdu);
        }
    }

    /// Does what is due on its connection.
    fn go_on(&mut self, now: u64, log: &Log<'_>) {
        self.look_at_test(now);
        if self.plans.answer <= now {
            self.plans.answer = u64::MAX;
            self.send(Apdu::TestCon);
        }
        if self.plans.talk <= now {
            let mean = self.scenario.of(Number::TalkMs);
            self.plans.talk = self.random.next_after(now, mean);
            self.send(Apdu::Acknowledgement);
        }
        if self.plans.turn <= now {
            self.start_or_stop(now);
        }
        if self.plans.die <= now {
            self.tell(log, "died");
            self.forget(now);
        } else if self.plans.leave <= now {
            self.leave(now, log);
        }
    }

    /// Reads a TESTFR act, if one has come: it is confirmed later, or never.
    fn look_at_test(&mut self, now: u64) {
        let is_tested = match &self.connection {
            Some(connection) => connection.is_tested() && self.plans.answer == u64::MAX,
            None => false,
        };
        if !is_tested {
            return;
        }
        if let Some(connection) = &self.connection {
            connection.forget_test();
        }
        if self.random.happens(self.scenario.of(Number::Mute)) {
            self.ignore_test(now);
        } else {
            let most = self.scenario.of(Number::AnswerMs).saturating_add(1);
            self.plans.answer = now.saturating_add(self.random.below(most));
        }
    }

    /// Doesn't confirm a TESTFR act. Where it transfers data, it may stop that while it owes the confirmation.
    fn ignore_test(&mut self, now: u64) {
        if self.has_started && self.random.happens(400) {
            let soon = now.saturating_add(self.random.between(500, 3000));
            self.plans.turn = self.plans.turn.min(soon);
        }
    }

    /// Starts data transfer, or stops it.
    fn start_or_stop(&mut self, now: u64) {
        if self.has_started {
            self.send(Apdu::StopAct);
            self.plans.turn = self.next_in(now, Number::StartS);
        } else {
            self.send(Apdu::StartAct);
            self.plans.turn = self.next_in(now, Number::StopS);
        }
        self.has_started = !self.has_started;
    }

    /// Ends its connection.
    fn leave(&mut self, now: u64, log: &Log<'_>) {
        if let Some(connection) = &self.connection {
            connection.leave();
        }
        self.tell(log, "left");
        self.forget(now);
    }

    /// Tells what becomes of its connection.
    fn tell(&self, log: &Log<'_>, word: &str) {
        if let Some(connection) = &self.connection {
            log.add(word, &[connection.number]);
        }
    }

    /// Connects no more.
    pub fn retire(&mut self) {
        self.connection = None;
        self.next = u64::MAX;
    }
}
