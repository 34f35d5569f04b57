//! Orders on their way to one outstation.
ghost use Rattle.std.specs.Prelude.{◌≡◌, ◌≤◌, false, is_some, length, [], IfOk};
ghost use Rattle.std.specs.List.{filter};
ghost use Rattle.circular_buffer.specs.Buffer.{buffer};
ghost use Rattle.gw_control.specs.Orders.{is_full, is_of_others, nothing_outgoing, order_given, outcome_at};
ghost use Rattle.gw_control.specs.Orders.{outcome_lost, outgoing_after_end, outgoing_after_ended};
ghost use Rattle.gw_control.specs.Orders.{outgoing_after_lost, outgoing_after_taking, outgoing_with};

use crate::accepted::{Accepted, UnderWay};
use crate::answer::Outcome;
use circular_buffer::HeapCircularBuffer;
use gw_model::{Ended, Memory, Order};
use std::alloc::Global;
use std::marker::Model;

/// How many orders may wait for an outstation.
pub const MOST_WAITING: usize = 16;

/// The orders that wait for an outstation, and the one that is under way to it.
#[derive(Drop)]
pub struct Outgoing {
    /// Oldest first.
    waiting: HeapCircularBuffer<Accepted>,
    under_way: Option<UnderWay>,
}

impl Model for Outgoing {
    ghost use Rattle.std.specs.Prelude.{◌≡◌, ◌≤◌, length};
    ghost use Rattle.gw_control.specs.Orders.{Outgoing as Seen};

    ghost Value = { Seen };

    ghost view = { λ o. record { waiting = o.waiting.items; under_way = o.under_way } };

    // There is room for as many as may wait.
    ghost invariant = { λ o. (length o.waiting.items ≤ 16) × (o.waiting.capacity ≡ 16) };
}

impl Outgoing {
    /// No order waits, and none is under way.
    pub fn new(alloc: Global) -> Result<Outgoing, Memory>
        ensures { IfOk result (λ outgoing. outgoing ≡ nothing_outgoing) }
    {
        let waiting = HeapCircularBuffer::with_capacity(alloc, MOST_WAITING)?;
        Ok(Outgoing {
            waiting,
            under_way: None,
        })
    }

    /// An equal value, with the same room, or `Memory` where there is none for it.
    pub fn copy(&self) -> Result<Outgoing, Memory>
        ensures { IfOk result (λ copy. copy ≡ self.now) }
    {
        let room = HeapCircularBuffer::with_capacity(*self.waiting.allocator(), MOST_WAITING)?;
        Ok(self.copy_into(room))
    }

    /// The same, in the memory of orders that aren't needed any more, so that none is asked for.
    pub fn copy_over(&self, spare: Outgoing) -> Result<Outgoing, Memory>
        ensures { IfOk result (λ copy. copy ≡ self.now) }
    {
        let mut room = spare.waiting;
        room.clear();
        Ok(self.copy_into(room))
    }

    fn copy_into(&self, room: HeapCircularBuffer<Accepted>) -> Outgoing
        requires { room ≡ buffer [] 16 }
        ensures { result ≡ self.now }
    {
        let mut waiting = room;
        let (front, back) = self.waiting.as_slices();
        waiting.extend_from_slice(front);
        waiting.extend_from_slice(back);
        Outgoing {
            waiting,
            under_way: self.under_way,
        }
    }

    /// The orders that wait, oldest first.
    pub fn waiting(&self) -> &HeapCircularBuffer<Accepted>
        ensures items { result.now.items ≡ self.now.waiting }
        ensures few { length self.now.waiting ≤ 16 }
    {
        &self.waiting
    }

    /// The order that is under way, if one is.
    pub fn under_way(&self) -> Option<UnderWay>
        ensures { result ≡ self.now.under_way }
    {
        self.under_way
    }

    /// Whether no further order may wait.
    pub fn is_full(&self) -> bool
        ensures { result ≡ is_full self.now }
    {
        self.waiting.is_full()
    }

    /// One more waits.
    pub fn push(&mut self, accepted: Accepted)
        requires { is_full self.old ≡ false }
        ensures { self.new ≡ outgoing_with accepted self.old }
    {
        self.waiting.push_back(accepted);
    }

    /// Whether `take` would give an order.
    pub fn waits(&self) -> bool
        ensures { result ≡ is_some (order_given self.now) }
    {
        self.under_way.is_none() && !self.waiting.is_empty()
    }

    /// The order that `take` would give.
    pub fn next(&self) -> Option<Order>
        ensures { result ≡ order_given self.now }
    {
        match self.under_way {
            Some(_) => None,
            None => Some(self.waiting.front()?.order),
        }
    }

    /// Gives the oldest order that waits, where none is under way; then it is.
    pub fn take(&mut self) -> Option<Order>
        ensures order { result ≡ order_given self.old }
        ensures after { self.new ≡ outgoing_after_taking self.old }
    {
        if self.under_way.is_some() {
            return None;
        }
        let accepted = self.waiting.pop_front()?;
        self.under_way = Some(UnderWay {
            accepted,
            left: false,
        });
        Some(accepted.order)
    }

    /// The order under way is over, where it is this one; its outcome, where its session stands.
    pub fn end_order(&mut self, ended: Ended) -> Option<Outcome>
        ensures outcome { result ≡ outcome_at ended self.old }
        ensures after { self.new ≡ outgoing_after_ended ended self.old }
    {
        let UnderWay { accepted, left } = self.under_way?;
        if accepted.order.number != ended.number {
            return None;
        }
        self.under_way = None;
        if left {
            None
        } else {
            Some(accepted.outcome(ended.done))
        }
    }

    /// The oldest order that waits fails.
    pub fn lose(&mut self) -> Option<Outcome>
        ensures outcome { result ≡ outcome_lost self.old }
        ensures after { self.new ≡ outgoing_after_lost self.old }
    {
        let accepted = self.waiting.pop_front()?;
        Some(accepted.outcome(false))
    }

    /// A client's session ends: its orders that wait go, and nobody is told what becomes of the one under way.
    pub fn end_session(&mut self, client: u8)
        ensures { self.new ≡ outgoing_after_end client self.old }
    {
        keep_others(&mut self.waiting, client);
        if let Some(under_way) = &mut self.under_way {
            if under_way.accepted.client == client {
                under_way.left = true;
            }
        }
    }
}

/// Those of other clients stay.
fn keep_others(waiting: &mut HeapCircularBuffer<Accepted>, client: u8)
    ensures items { waiting.new.items ≡ filter (is_of_others client) waiting.old.items }
    ensures fewer { length waiting.new.items ≤ length waiting.old.items }
    ensures capacity { waiting.new.capacity ≡ waiting.old.capacity }
{
    for _ in 0..waiting.len() {
        if let Some(accepted) = waiting.pop_front() {
            if accepted.client != client {
                waiting.push_back(accepted);
            }
        }
    }
}
