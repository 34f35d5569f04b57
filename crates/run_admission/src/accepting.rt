//! Clients that connect.

use crate::acceptor::Acceptor;
use crate::client_stream::ClientStream;
use crate::listener::{look_up_from_accept, stay_in_accept};
use crate::network::{Network, allows};
use crate::refusals::Refusals;
use crate::slots::{AcceptedClient, Slots};
use crate::waiting_clients::{WaitingClient, WaitingClients};
use gw_model::Memory;
use run_clock::Clock;
use run_journal::{Failure, JournalEvent};
use run_peers::{ClientConnection, Reporter};
use std::alloc::Global;
use std::io::ErrorKind;
use std::net::{IpAddr, TcpStream};
use std::rt::Clock as Sleeps;
use std::sync::Wait;
use std::thread;
use std::time::Duration;

/// The milliseconds until it is tried again where no connection could be accepted.
const PAUSE_MS: u64 = 1000;

/// The milliseconds until it is looked again for a slot, where nobody may be accepted meanwhile.
const LOOK_MS: u64 = 100;

/// What accepting waits for before its next turn.
#[derive(Clone, Copy)]
pub enum AwaitedClient {
    /// The next client.
    Client,
    /// The next client, but not for long: clients wait for a slot.
    ClientOrTime,
    /// A slot that becomes free, which takes a while: nobody may be accepted meanwhile.
    Time,
    /// Nothing: nobody comes any more, and nobody waits.
    Nothing,
}

/// How far accepting has come.
#[derive(Drop)]
pub struct Accepting<T = TcpStream> {
    /// How many clients may still come, if that is bounded.
    left: Option<u32>,
    /// How many have come.
    order: u64,
    refusals: Refusals,
    /// Those that came and have no slot yet.
    waiting: WaitingClients<T>,
}

impl<T: ClientStream + Drop> Accepting<T> {
    /// Nobody has come, and so many may, if that is bounded.
    pub fn new(alloc: Global, sessions: Option<u32>) -> Accepting<T> {
        Accepting {
            left: sessions,
            order: 0,
            refusals: Refusals::new(alloc),
            waiting: WaitingClients::new(alloc),
        }
    }

    /// One turn: gives those that wait the slots that are free. Where none is, one of the address of each that waits gives
    /// way, if one there seems to be dead. What is waited for then.
    pub fn turn<R: Wait, C: Clock>(
        &mut self,
        reporter: &Reporter<'_, R, C>,
        slots: &Slots<T>,
    ) -> AwaitedClient {
        self.assign_waiting(reporter, slots);
        if self.is_over() || slots.has_ended(reporter.rt) {
            return AwaitedClient::Nothing;
        }
        match (self.has_room(), self.waiting.is_empty()) {
            (false, _) => AwaitedClient::Time,
            (true, false) => AwaitedClient::ClientOrTime,
            (true, true) => AwaitedClient::Client,
        }
    }

    /// Takes a client that has connected, which waits for a slot then, or refuses it if it isn't one of those that may.
    pub fn take<R: Wait, C: Clock>(
        &mut self,
        reporter: &Reporter<'_, R, C>,
        allow: &[Network],
        client: AcceptedClient<T>,
    ) {
        if !allows(allow, client.address.ip()) {
            self.refuse(reporter, client.address.ip());
        } else if self.admit(client).is_err() {
            reporter.tell(JournalEvent::NotAccepted(Failure::Memory));
        }
    }

    /// One more client comes, and waits for a slot.
    fn admit(&mut self, client: AcceptedClient<T>) -> Result<(), Memory> {
        let order = self.order;
        self.left = self.left.map(|count| count.saturating_sub(1));
        self.order = order.saturating_add(1);
        self.waiting.add(client, order)
    }

    /// Counts somebody who isn't allowed, and tells of it, unless that was told not long ago.
    fn refuse<R: Wait, C: Clock>(&mut self, reporter: &Reporter<'_, R, C>, address: IpAddr) {
        reporter.peers.refuse_connection();
        if let Some(left_out) = self.refusals.ask(address, reporter.clock.wall()) {
            reporter.tell(JournalEvent::NotAllowed { address, left_out });
        }
    }

    /// Whether one more may come.
    fn has_room(&self) -> bool {
        self.left != Some(0) && !self.waiting.is_full()
    }

    /// Whether none comes any more, and none waits.
    fn is_over(&self) -> bool {
        self.left == Some(0) && self.waiting.is_empty()
    }

    /// Gives those that wait the slots that are free, or lets others give way to them.
    fn assign_waiting<R: Wait, C: Clock>(
        &mut self,
        reporter: &Reporter<'_, R, C>,
        slots: &Slots<T>,
    ) {
        for _ in reporter.rt.forever() {
            if self.waiting.is_empty() {
                return;
            }
            let Some(slot) = slots.free_slot(reporter.rt) else {
                break;
            };
            if let Some(next) = self.waiting.next() {
                assign(reporter, slots, slot, next);
            }
        }
        let moment = reporter.clock.moment();
        self.waiting
            .make_way(reporter.rt, reporter.peers, slots, moment);
        slots.tell_full(reporter);
    }
}

/// Gives a client its slot.
fn assign<T: ClientStream + Drop, R: Wait, C: Clock>(
    reporter: &Reporter<'_, R, C>,
    slots: &Slots<T>,
    slot: u8,
    next: WaitingClient<T>,
) {
    let WaitingClient { client, order, .. } = next;
    if let Some(record) = reporter.peers.client(slot) {
        let moment = reporter.clock.moment();
        record.assign(
            reporter.rt,
            ClientConnection::new(client.address, order, moment),
        );
    }
    slots.assign(reporter, slot, client);
}

/// Accepts clients, and gives each a slot once one is free, until there were as many as there may be, or standard input
/// has ended.
pub fn accept<R: Wait + Sleeps, C: Clock>(
    reporter: &Reporter<'_, R, C>,
    slots: &Slots,
    acceptor: &Acceptor<'_>,
) {
    if let Ok(address) = acceptor.listener.local_addr() {
        reporter.tell(JournalEvent::Listening(address));
    }
    let mut accepting = Accepting::new(reporter.alloc, acceptor.sessions);
    let mut looks_up = false;
    for _ in reporter.rt.forever() {
        let awaited = accepting.turn(reporter, slots);
        match awaited {
            AwaitedClient::Nothing => return,
            AwaitedClient::Time => thread::sleep(reporter.rt, Duration::from_millis(LOOK_MS)),
            AwaitedClient::Client | AwaitedClient::ClientOrTime => {
                if look_up(acceptor, &mut looks_up, awaited) {
                    accept_next(reporter, acceptor, &mut accepting);
                } else {
                    thread::sleep(reporter.rt, Duration::from_millis(LOOK_MS));
                }
            }
        }
    }
}

/// Lets the listener come back from its waits while clients wait for a slot, and where it has to see the end of standard
/// input. `looks_up` is whether it does. Whether it may be waited at: it comes back if it has to.
fn look_up(acceptor: &Acceptor<'_>, looks_up: &mut bool, awaited: AwaitedClient) -> bool {
    let wanted = acceptor.until_eof.is_some() || matches!(awaited, AwaitedClient::ClientOrTime);
    if wanted != *looks_up {
        let is_so = if wanted {
            look_up_from_accept(acceptor.listener)
        } else {
            stay_in_accept(acceptor.listener)
        };
        if is_so {
            *looks_up = wanted;
        }
    }
    *looks_up || !wanted
}

/// Accepts the next client, if one comes in time.
fn accept_next<R: Wait + Sleeps, C: Clock>(
    reporter: &Reporter<'_, R, C>,
    acceptor: &Acceptor<'_>,
    accepting: &mut Accepting,
) {
    match acceptor.listener.accept() {
        Ok((stream, address)) => {
            accepting.take(reporter, acceptor.allow, AcceptedClient { stream, address });
        }
        Err(error) if error.kind() == ErrorKind::WouldBlock => {}
        Err(error) => {
            reporter.tell(JournalEvent::NotAccepted(Failure::from(error.kind())));
            thread::sleep(reporter.rt, Duration::from_millis(PAUSE_MS));
        }
    }
}
