//! What is known of the connection of the client that has a slot.

use std::net::{IpAddr, SocketAddr};

/// The milliseconds in which a client that has connected, or has stopped data transfer, may be about to start it, and
/// one that is tested may be about to answer.
const GRACE_MS: u64 = 1000;

/// What is known of the connection of the client that has a slot.
#[derive(Drop)]
pub struct ClientConnection {
    /// Where it connects from; nowhere where the slot has no client.
    address: Option<SocketAddr>,
    /// How many clients had connected before.
    order: u64,
    /// The moment at which it connected, or last stopped data transfer.
    since: u64,
    /// The moment of its last APDU, or at which it connected.
    heard: u64,
    /// The moment at which it was sent a TESTFR act that it hasn't confirmed, if it was.
    tested: Option<u64>,
    /// It asked for data transfer.
    has_started: bool,
    /// It was made to leave.
    leaves: bool,
    /// A tick closed its connection, since t1 had expired.
    has_expired: bool,
}

impl ClientConnection {
    /// Nobody has the slot.
    pub fn none() -> ClientConnection {
        ClientConnection {
            address: None,
            order: 0,
            since: 0,
            heard: 0,
            tested: None,
            has_started: false,
            leaves: false,
            has_expired: false,
        }
    }

    /// A client has it since a moment, behind so many that had connected before.
    pub fn new(address: SocketAddr, order: u64, since: u64) -> ClientConnection {
        ClientConnection {
            address: Some(address),
            order,
            since,
            heard: since,
            tested: None,
            has_started: false,
            leaves: false,
            has_expired: false,
        }
    }

    /// The client asks for data transfer.
    pub fn start(&mut self) {
        self.has_started = true;
    }

    /// The client has stopped data transfer at a moment, if it had asked for it.
    pub fn stop(&mut self, moment: u64) {
        if self.has_started {
            self.has_started = false;
            self.since = moment;
        }
    }

    /// An APDU of the client was taken at a moment, which confirms a test or doesn't.
    pub fn hear(&mut self, moment: u64, confirms_test: bool) {
        self.heard = moment;
        if confirms_test {
            self.tested = None;
        }
    }

    /// The client was sent a TESTFR act at a moment.
    pub fn test(&mut self, moment: u64) {
        self.tested = Some(self.tested.unwrap_or(moment));
    }

    /// How many had connected before a client from this address that may have to give way at a moment: it doesn't
    /// transfer data, connected or stopped a second before or earlier, and seems to be dead, where one counts as dead of
    /// which nothing came for so many milliseconds.
    pub fn gives_way(&self, address: IpAddr, moment: u64, silence_ms: u64) -> Option<u64> {
        let may_go = self.is_from(address) && !self.has_started && !self.leaves;
        if may_go && has_passed(GRACE_MS, self.since, moment) && self.is_dead(moment, silence_ms) {
            Some(self.order)
        } else {
            None
        }
    }

    /// Whether a second before a moment or earlier the client had been silent for so many milliseconds, or had been sent a
    /// TESTFR act that it hasn't confirmed since: one that lives is tested each time that it was silent for so long, and
    /// its answer is on the way for a while.
    fn is_dead(&self, moment: u64, silence_ms: u64) -> bool {
        let owes_answer = match self.tested {
            Some(tested) => has_passed(GRACE_MS, tested, moment),
            None => false,
        };
        owes_answer || has_passed(silence_ms.saturating_add(GRACE_MS), self.heard, moment)
    }

    /// Whether the client connects from this address.
    fn is_from(&self, address: IpAddr) -> bool {
        match &self.address {
            Some(own) => own.ip() == address,
            None => false,
        }
    }

    /// The client is made to leave.
    pub fn leave(&mut self) {
        self.leaves = true;
    }

    /// Whether it was made to leave.
    pub fn leaves(&self) -> bool {
        self.leaves
    }

    /// A tick closed its connection.
    pub fn expire(&mut self) {
        self.has_expired = true;
    }

    /// Whether a tick closed its connection.
    pub fn has_expired(&self) -> bool {
        self.has_expired
    }
}

/// Whether so many milliseconds have passed from one moment to another.
fn has_passed(milliseconds: u64, before: u64, now: u64) -> bool {
    now.saturating_sub(before) >= milliseconds
}
