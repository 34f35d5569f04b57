//! The thread that accepts clients.

use crate::connection::{Connection, Wire};
use crate::stage::Stage;
use run_admission::{AcceptedClient, Accepting, AwaitedClient, ClientStream};
use sim_peers::Random;
use std::rc::Rc;
use std::sync::Wait;

/// The milliseconds until it looks again, where clients wait for a slot or the end of standard input has to be seen.
const LOOK_MS: u64 = 100;

/// The thread that accepts clients, those that it hasn't accepted yet, and standard input.
#[derive(Drop)]
pub struct AcceptingThread {
    random: Random,
    /// Nothing, once no further client is accepted.
    accepting: Option<Accepting<Wire>>,
    /// Those that connected, in their order.
    backlog: Vec<AcceptedClient<Wire>>,
    awaited: AwaitedClient,
    /// When it takes its next turn, if nobody comes.
    at: u64,
    /// When it takes the next client; never, where it didn't see that one is there.
    takes: u64,
    /// When standard input ends, where that is waited for.
    end: Option<u64>,
    has_ended: bool,
    is_dismissed: bool,
}

impl AcceptingThread {
    /// One at which nobody was.
    pub fn new<R: Wait>(stage: &Stage<'_, R>) -> AcceptingThread {
        AcceptingThread {
            random: stage.random(100),
            accepting: Some(Accepting::new(stage.alloc, stage.scenario.sessions())),
            backlog: Vec::new(stage.alloc),
            awaited: AwaitedClient::Time,
            at: 0,
            takes: u64::MAX,
            end: stage.scenario.end(),
            has_ended: false,
            is_dismissed: false,
        }
    }

    /// A client connects.
    pub fn add(&mut self, client: AcceptedClient<Wire>) {
        let _ = self.backlog.push(client);
    }

    /// Whether no further client is accepted.
    pub fn is_closed(&self) -> bool {
        self.accepting.is_none()
    }

    /// Whether all clients were shut, since standard input has ended.
    pub fn is_dismissed(&self) -> bool {
        self.is_dismissed
    }

    /// When something is due.
    pub fn due(&self) -> u64 {
        let end = self.end.unwrap_or(u64::MAX);
        let turn = if !self.is_closed() {
            self.turn_due()
        } else if self.is_dismissed {
            u64::MAX
        } else {
            end
        };
        if self.has_ended { turn } else { turn.min(end) }
    }

    /// When the next turn is due.
    fn turn_due(&self) -> u64 {
        if !self.can_take() {
            self.at
        } else if self.takes == u64::MAX {
            0
        } else {
            self.at.min(self.takes)
        }
    }

    /// Whether somebody is there who may be accepted now.
    fn can_take(&self) -> bool {
        let is_awaited = match self.awaited {
            AwaitedClient::Client | AwaitedClient::ClientOrTime => true,
            AwaitedClient::Time | AwaitedClient::Nothing => false,
        };
        is_awaited && !self.backlog.is_empty()
    }

    /// Does what is due at a moment; what is awaited, where it took a turn.
    pub fn act<R: Wait>(&mut self, now: u64, stage: &Stage<'_, R>) -> Option<AwaitedClient> {
        self.look_at_input(now, stage);
        if self.is_closed() {
            self.dismiss(stage);
            return None;
        }
        if self.can_take() {
            if self.takes == u64::MAX {
                self.takes = now.saturating_add(stage.hold(&mut self.random));
            }
            if self.takes <= now {
                self.take(stage);
                return self.turn(now, stage);
            }
        }
        if self.at <= now {
            self.turn(now, stage)
        } else {
            None
        }
    }

    /// Standard input ends, if it does.
    fn look_at_input<R: Wait>(&mut self, now: u64, stage: &Stage<'_, R>) {
        match self.end {
            Some(end) if end <= now && !self.has_ended => {
                self.has_ended = true;
                stage.slots.end(stage.rt);
                stage.log.add("input_ended", &[]);
            }
            _ => {}
        }
    }

    /// All clients are shut once standard input has ended and none is accepted.
    fn dismiss<R: Wait>(&mut self, stage: &Stage<'_, R>) {
        if self.has_ended && !self.is_dismissed {
            self.is_dismissed = true;
            stage.log.add("dismissed", &[]);
            stage.reporter.peers.dismiss_all(stage.rt);
            stage.slots.shut_all(stage.rt);
        }
    }

    /// Accepts the first of those that are there.
    fn take<R: Wait>(&mut self, stage: &Stage<'_, R>) {
        self.takes = u64::MAX;
        if self.backlog.is_empty() {
            return;
        }
        let client = self.backlog.remove(0);
        if let (Some(seen), Some(accepting)) = (client.stream.handle(), &mut self.accepting) {
            let handles = Rc::strong_count(&seen.connection);
            accepting.take(stage.reporter, stage.allow, client);
            tell_taken(stage, &seen.connection, handles);
        }
    }

    /// Takes a turn.
    fn turn<R: Wait>(&mut self, now: u64, stage: &Stage<'_, R>) -> Option<AwaitedClient> {
        let accepting = match &mut self.accepting {
            Some(accepting) => accepting,
            None => return None,
        };
        stage.log.add("turn", &[]);
        let awaited = accepting.turn(stage.reporter, stage.slots);
        self.awaited = awaited;
        self.takes = u64::MAX;
        let look = now
            .saturating_add(LOOK_MS)
            .saturating_add(stage.hold(&mut self.random));
        self.at = match awaited {
            AwaitedClient::Client if self.end.is_none() => u64::MAX,
            AwaitedClient::Client | AwaitedClient::ClientOrTime | AwaitedClient::Time => look,
            AwaitedClient::Nothing => u64::MAX,
        };
        if let AwaitedClient::Nothing = awaited {
            self.accepting = None;
            stage.slots.close(stage.rt);
        }
        Some(awaited)
    }

    /// Those that weren't accepted are forgotten; how many they are.
    pub fn forget(&mut self) -> u64 {
        let count = self.backlog.len() as u64;
        self.backlog.clear();
        count
    }
}

/// Tells whether a client was taken or refused, of whose connection there were so many handles before.
fn tell_taken<R: Wait>(stage: &Stage<'_, R>, connection: &Rc<Connection>, handles: usize) {
    let word = if Rc::strong_count(connection) < handles {
        "refused"
    } else {
        "taken"
    };
    stage.log.add(word, &[connection.number]);
}

/// A number for what is awaited.
pub fn code_of(awaited: AwaitedClient) -> u64 {
    match awaited {
        AwaitedClient::Client => 0,
        AwaitedClient::ClientOrTime => 1,
        AwaitedClient::Time => 2,
        AwaitedClient::Nothing => 3,
    }
}
