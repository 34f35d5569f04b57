//! Events on their way to a file.

use crate::event::{Event, Gap};
use circular_buffer::HeapCircularBuffer;
use gw_model::{Memory, Observation};
use std::alloc::{AllocError, Global};

/// How many events, and gaps between them, may wait.
pub const MOST_EVENTS: usize = 16_384;

/// What waits to be written.
#[derive(Clone, Copy)]
pub enum Entry {
    /// An event.
    Event(Event),
    /// That some were left out.
    Gap(Gap),
}

/// Events that wait to be written. Nobody waits for them: where there is no room the newest are left out and counted.
#[derive(Drop)]
pub struct WaitingEvents {
    entries: HeapCircularBuffer<Entry>,
    /// What was left out behind those that wait.
    gap: Gap,
    is_closed: bool,
}

impl WaitingEvents {
    /// Nothing yet.
    pub fn new(alloc: Global) -> Result<WaitingEvents, Memory> {
        Ok(WaitingEvents {
            entries: HeapCircularBuffer::with_capacity(alloc, MOST_EVENTS)?,
            gap: Gap::NONE,
            is_closed: false,
        })
    }

    /// Adds observations that were told at a moment; how many of them are left out.
    pub fn add(&mut self, wall: u64, observations: &[Observation]) -> u64 {
        let mut left_out: u64 = 0;
        for observation in observations {
            let event = Event {
                wall,
                observation: *observation,
            };
            if !self.add_one(event) {
                left_out = left_out.saturating_add(1);
            }
        }
        self.leave_out(wall, left_out);
        left_out
    }

    /// Adds an event, and in front of it what was left out; whether there is room.
    fn add_one(&mut self, event: Event) -> bool {
        if self.entries.len().saturating_add(2) > MOST_EVENTS {
            return false;
        }
        if self.gap.count > 0 {
            self.entries.push_back(Entry::Gap(self.gap));
            self.gap = Gap::NONE;
        }
        self.entries.push_back(Entry::Event(event));
        true
    }

    /// So many are left out at a moment.
    pub fn leave_out(&mut self, wall: u64, count: u64) {
        if count > 0 {
            self.gap = self.gap.with(wall, count);
        }
    }

    /// Nothing more comes.
    pub fn close(&mut self) {
        self.is_closed = true;
    }

    /// Whether nothing more comes.
    pub fn is_closed(&self) -> bool {
        self.is_closed
    }

    /// Moves what waited longest behind others, so much at most. Whether nothing waits any more, and nothing will.
    pub fn take(&mut self, most: usize, entries: &mut Vec<Entry>) -> Result<bool, AllocError> {
        for _ in 0..most {
            match self.entries.pop_front() {
                Some(entry) => entries.push(entry)?,
                None => break,
            }
        }
        if self.entries.is_empty() && self.gap.count > 0 {
            entries.push(Entry::Gap(self.gap))?;
            self.gap = Gap::NONE;
        }
        Ok(self.is_closed && self.entries.is_empty())
    }
}
