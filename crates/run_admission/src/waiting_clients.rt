//! Clients that wait for a slot.

use crate::client_stream::ClientStream;
use crate::slots::{AcceptedClient, Slots};
use gw_model::Memory;
use run_peers::Peers;
use std::alloc::Global;
use std::sync::Wait;

/// How many clients may wait.
const MOST_WAITING: usize = 8;

/// A client that waits for a slot.
#[derive(Drop)]
pub(crate) struct WaitingClient<T> {
    pub(crate) client: AcceptedClient<T>,
    /// How many had come before.
    pub(crate) order: u64,
    /// Another one was made to give way to it.
    has_way: bool,
}

/// The clients that were accepted and wait for a slot, in the order in which they came.
#[derive(Drop)]
pub(crate) struct WaitingClients<T> {
    clients: Vec<WaitingClient<T>>,
}

impl<T: ClientStream + Drop> WaitingClients<T> {
    /// Nobody waits. There is room for all that may, unless there is no memory for it now.
    pub(crate) fn new(alloc: Global) -> WaitingClients<T> {
        let mut clients = Vec::new(alloc);
        let _ = clients.reserve(MOST_WAITING);
        WaitingClients { clients }
    }

    /// Whether nobody waits.
    pub(crate) fn is_empty(&self) -> bool {
        self.clients.is_empty()
    }

    /// Whether as many wait as may.
    pub(crate) fn is_full(&self) -> bool {
        self.clients.len() >= MOST_WAITING
    }

    /// One more waits.
    pub(crate) fn add(&mut self, client: AcceptedClient<T>, order: u64) -> Result<(), Memory> {
        self.clients.push(WaitingClient {
            client,
            order,
            has_way: false,
        })?;
        Ok(())
    }

    /// The one that is served next: the first that another one was made to give way to, else the first.
    pub(crate) fn next(&mut self) -> Option<WaitingClient<T>> {
        let position = self.clients.iter().position(|it| it.has_way).unwrap_or(0);
        if position < self.clients.len() {
            Some(self.clients.remove(position))
        } else {
            None
        }
    }

    /// For each that has no slot in view, one of its address is made to give way, if one may have to at a moment.
    pub(crate) fn make_way<R: Wait>(
        &mut self,
        rt: &R,
        peers: &Peers,
        slots: &Slots<T>,
        moment: u64,
    ) {
        for waiting in &mut self.clients {
            if !waiting.has_way {
                if let Some(slot) = peers.make_room(rt, waiting.client.address.ip(), moment) {
                    slots.shut(rt, slot);
                    waiting.has_way = true;
                }
            }
        }
    }
}
