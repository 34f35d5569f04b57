//! What is kept of the calls since a base.
ghost use Rattle.std.specs.Prelude.{◌≡◌, ◌<◌, IfOk, OnErr, OnOk, length, ◌==◌};
ghost use Rattle.run_shared.specs.Recording.{tape_on, tape_with};

use crate::entry::Entry;
use gw_model::Memory;
use gw_steps::Machine;
use std::alloc::Global;
use std::marker::Model;
use std::mem;

/// A machine as it was, how many calls each actor had made then, and the calls since.
#[derive(Drop)]
pub struct Tape<M: Machine> {
    alloc: Global,
    capacity: usize,
    base: M,
    before: Vec<u64>,
    /// The base before this one, whose memory the next one takes over.
    spare: Option<M>,
    /// The calls, of which the first `used` count. What stands behind them is from before the last roll, and is let go
    /// one by one as it is written over, so that a roll takes no longer the more calls it forgets.
    slots: Vec<Entry>,
    used: usize,
}

impl<M: Machine> Model for Tape<M> {
    ghost use Rattle.std.specs.Prelude.{◌≤◌, length, take, vec_capacity};
    ghost use Rattle.run_shared.specs.Recording.{Tape as Seen};

    ghost Value = { Seen };

    ghost view = { λ t. record {
      capacity = t.capacity;
      base = M.seen t.base;
      before = t.before.items;
      entries = take t.used t.slots.items;
    } };

    ghost invariant = { λ t. (t.used ≤ length t.slots.items) × (length t.slots.items ≤ t.capacity)
        × (t.capacity ≤ vec_capacity t.slots) };
}

impl<M: Machine> Tape<M> {
    /// The tape on which no call was kept since the machine was so, and each actor had made so many.
    pub fn new(
        alloc: Global,
        machine: &M,
        counts: &[u64],
        capacity: usize,
    ) -> Result<Tape<M>, Memory>
        ensures { IfOk result (λ tape. tape ≡ tape_on (M.seen machine.now) counts.now capacity) }
    {
        let before = Vec::from_slice(alloc, counts)?;
        let slots = Vec::with_capacity(alloc, capacity)?;
        Ok(Tape {
            alloc,
            capacity,
            base: machine.copy()?,
            before,
            spare: None,
            slots,
            used: 0,
        })
    }

    /// Whether no further call can be kept.
    pub fn is_full(&self) -> bool
        ensures { result ≡ (length self.now.entries == self.now.capacity) }
    {
        self.used == self.capacity
    }

    /// Keeps one more call.
    pub fn push(&mut self, entry: Entry)
        requires { length self.old.entries < self.old.capacity }
        ensures { self.new ≡ tape_with entry self.old }
    {
        if self.used < self.slots.len() {
            self.slots[self.used] = entry;
        } else {
            self.slots.push_reserved(entry);
        }
        self.used += 1;
    }

    /// Forgets all calls: the base is the machine as it is now.
    pub fn roll(&mut self, machine: &M, counts: &[u64]) -> Result<(), Memory>
        ensures ok { OnOk result (self.new ≡ tape_on (M.seen machine.now) counts.now self.old.capacity) }
        ensures err { OnErr result (self.new ≡ self.old) }
    {
        let before = Vec::from_slice(self.alloc, counts)?;
        let base = match self.spare.take() {
            Some(spare) => machine.copy_over(spare)?,
            None => machine.copy()?,
        };
        self.before = before;
        self.spare = Some(mem::replace(&mut self.base, base));
        self.used = 0;
        Ok(())
    }

    /// The base, the counts then, and the calls since, the oldest first.
    pub fn base(&self) -> &M
        ensures { M.seen result.now ≡ self.now.base }
    {
        &self.base
    }

    /// How many calls each actor had made at the base.
    pub fn before(&self) -> &[u64]
        ensures { result.now ≡ self.now.before }
    {
        self.before.as_slice()
    }

    /// The calls since the base, the oldest first.
    pub fn entries(&self) -> &[Entry]
        ensures { result.now ≡ self.now.entries }
    {
        &self.slots[..self.used]
    }
}
