//! The slots of clients.

use crate::client_stream::ClientStream;
use gw_model::Memory;
use run_clock::Clock;
use run_journal::{JournalEvent, LineBudget};
use run_peers::Reporter;
use std::alloc::Global;
use std::net::{SocketAddr, TcpStream};
use std::sync::{Condvar, Mutex, Wait};

/// A connection of a client that was accepted.
#[derive(Drop)]
pub struct AcceptedClient<T = TcpStream> {
    pub stream: T,
    pub address: SocketAddr,
}

/// One slot.
#[derive(Drop)]
enum Slot<T> {
    /// Its workers haven't come back from their last client, whose connection this is a second handle of.
    Taken(Option<T>),
    /// No client has it.
    Free,
    /// Its workers are to serve this client.
    Given(AcceptedClient<T>),
}

/// What lies under the lock of the slots.
#[derive(Drop)]
struct SlotTable<T> {
    slots: Vec<Slot<T>>,
    /// No further client is accepted.
    ended: bool,
    /// No further client comes.
    closed: bool,
    /// It was told that all are taken, and not that one is free since.
    is_told: bool,
    /// How often all were taken until one was free, and it wasn't told.
    left_out: u64,
    lines: LineBudget,
}

/// Where clients wait for the workers of the slot that they were given, which is the lowest that is free.
#[derive(Drop)]
pub struct Slots<T = TcpStream> {
    table: Mutex<SlotTable<T>>,
    changed: Condvar,
}

impl<T: ClientStream + Drop> Slots<T> {
    /// So many slots, all free: their workers come before anybody is accepted, or find whom they were given.
    pub fn new(alloc: Global, count: u8) -> Result<Slots<T>, Memory> {
        let mut slots = Vec::with_capacity(alloc, usize::from(count))?;
        for _ in 0..count {
            slots.push(Slot::Free)?;
        }
        Ok(Slots {
            table: Mutex::new(SlotTable {
                slots,
                ended: false,
                closed: false,
                is_told: false,
                left_out: 0,
                lines: LineBudget::new(),
            }),
            changed: Condvar::new(),
        })
    }

    /// The lowest slot that is free. It stays so until it is given.
    pub fn free_slot<R: Wait>(&self, rt: &R) -> Option<u8> {
        self.table.lock(rt).free_slot()
    }

    /// Gives a client a slot that is free. That none is free then is told here if it is to be, as what follows is told under the
    /// lock, so that the lines stand in their order.
    pub fn assign<R: Wait, C: Clock>(
        &self,
        reporter: &Reporter<'_, R, C>,
        slot: u8,
        client: AcceptedClient<T>,
    ) {
        let mut table = self.table.lock(reporter.rt);
        table.give(slot, client);
        table.tell_full(reporter);
        self.changed.notify_all();
    }

    /// Tells that no slot is free, if that is so and is to be told.
    pub fn tell_full<R: Wait, C: Clock>(&self, reporter: &Reporter<'_, R, C>) {
        self.table.lock(reporter.rt).tell_full(reporter);
    }

    /// No further client is accepted.
    pub fn end<R: Wait>(&self, rt: &R) {
        self.table.lock(rt).ended = true;
        self.changed.notify_all();
    }

    /// Whether no further client is accepted.
    pub fn has_ended<R: Wait>(&self, rt: &R) -> bool {
        self.table.lock(rt).ended
    }

    /// No further client comes.
    pub fn close<R: Wait>(&self, rt: &R) {
        self.table.lock(rt).closed = true;
        self.changed.notify_all();
    }

    /// The workers of a slot are there again. That a slot is free is told if it was told that none was.
    pub fn free<R: Wait, C: Clock>(&self, reporter: &Reporter<'_, R, C>, slot: u8) {
        let mut table = self.table.lock(reporter.rt);
        if table.free(slot, reporter.clock.wall()) {
            reporter.tell(JournalEvent::PlaceFree);
        }
        self.changed.notify_all();
    }

    /// The workers of a slot wait for their next client; none where no further one comes.
    pub fn next<R: Wait>(&self, rt: &R, slot: u8) -> Option<AcceptedClient<T>> {
        let mut table = self
            .changed
            .wait_while(rt, self.table.lock(rt), |table| table.is_idle(slot));
        table.take(slot)
    }

    /// The client that a slot was given and whose workers don't serve it yet, if there is one.
    pub fn take_given<R: Wait>(&self, rt: &R, slot: u8) -> Option<AcceptedClient<T>> {
        self.table.lock(rt).take_given(slot)
    }

    /// Shuts the connection of the client that has a slot, if one has it.
    pub fn shut<R: Wait>(&self, rt: &R, slot: u8) {
        if let Some(slot) = self.table.lock(rt).slots.get(usize::from(slot)) {
            slot.shut();
        }
    }

    /// Shuts the connections of all clients.
    pub fn shut_all<R: Wait>(&self, rt: &R) {
        for slot in &self.table.lock(rt).slots {
            slot.shut();
        }
    }
}

impl<T: ClientStream> Slot<T> {
    /// Shuts the connection of the client that has it, if one has.
    fn shut(&self) {
        match self {
            Slot::Taken(Some(stream)) => stream.shut(),
            Slot::Given(client) => client.stream.shut(),
            Slot::Taken(None) | Slot::Free => {}
        }
    }
}

impl<T: ClientStream + Drop> SlotTable<T> {
    fn has_free(&self) -> bool {
        self.slots.iter().any(|slot| matches!(slot, Slot::Free))
    }

    /// The workers of a slot are there; a client that it was given already stays. Whether it is to be told that a slot
    /// is free: where it was told that none was.
    fn free(&mut self, slot: u8, wall: u64) -> bool {
        let was_full = !self.closed && !self.has_free();
        match self.slots.get_mut(usize::from(slot)) {
            Some(slot) if matches!(slot, Slot::Taken(_)) => {
                *slot = Slot::Free;
                was_full && self.untake(wall)
            }
            _ => false,
        }
    }

    /// A slot is free, and none was. Whether that is to be told.
    fn untake(&mut self, wall: u64) -> bool {
        let was_told = self.is_told;
        self.is_told = false;
        if was_told {
            self.lines.spend(wall);
        } else {
            self.left_out = self.left_out.saturating_add(1);
        }
        was_told
    }

    /// Tells that no slot is free, if that is so and is to be told, with how often it wasn't told before.
    fn tell_full<R: Wait, C: Clock>(&mut self, reporter: &Reporter<'_, R, C>) {
        if self.has_free() || self.is_told || !self.lines.take(reporter.clock.wall()) {
            return;
        }
        self.is_told = true;
        let left_out = std::mem::replace(&mut self.left_out, 0);
        reporter.tell(JournalEvent::AllPlacesTaken { left_out });
    }

    /// The lowest slot that is free.
    fn free_slot(&self) -> Option<u8> {
        let slot = self
            .slots
            .iter()
            .position(|slot| matches!(slot, Slot::Free))?;
        u8::try_from(slot).ok()
    }

    /// Gives a client a slot.
    fn give(&mut self, slot: u8, client: AcceptedClient<T>) {
        if let Some(slot) = self.slots.get_mut(usize::from(slot)) {
            *slot = Slot::Given(client);
        }
    }

    /// Whether the workers of a slot have nothing to do yet.
    fn is_idle(&self, slot: u8) -> bool {
        match self.slots.get(usize::from(slot)) {
            Some(Slot::Given(_)) | None => false,
            Some(Slot::Free | Slot::Taken(_)) => !self.closed,
        }
    }

    /// The client that a slot was given, if it was. Its workers are taken from now on.
    fn take(&mut self, slot: u8) -> Option<AcceptedClient<T>> {
        let slot = self.slots.get_mut(usize::from(slot))?;
        match std::mem::replace(slot, Slot::Taken(None)) {
            Slot::Given(client) => {
                *slot = Slot::Taken(client.stream.handle());
                Some(client)
            }
            Slot::Free | Slot::Taken(_) => None,
        }
    }

    /// The client that a slot was given, if it was; else the slot stays as it is.
    fn take_given(&mut self, slot: u8) -> Option<AcceptedClient<T>> {
        match self.slots.get(usize::from(slot)) {
            Some(Slot::Given(_)) => self.take(slot),
            _ => None,
        }
    }
}
