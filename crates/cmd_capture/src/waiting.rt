//! What waits to be written.

use crate::lines::Lines;
use circular_buffer::HeapCircularBuffer;
use cmd_text::RecordEndCause;
use gw_model::Memory;
use std::alloc::Global;

/// How many batches of lines may wait.
const MOST_BATCHES: usize = 65_536;

/// How many octets may wait.
const MOST_OCTETS: usize = 16_000_000;

/// How much lines are.
#[derive(Clone, Copy)]
pub struct Amount {
    pub batches: usize,
    pub octets: usize,
}

impl Amount {
    /// No lines.
    pub const NONE: Amount = Amount {
        batches: 0,
        octets: 0,
    };

    /// That of lines that were handed over together.
    pub fn of(lines: &Lines) -> Amount {
        Amount {
            batches: 1,
            octets: lines.steps.len().saturating_add(lines.answers.len()),
        }
    }

    /// With so much more.
    pub fn with(self, more: Amount) -> Amount {
        Amount {
            batches: self.batches.saturating_add(more.batches),
            octets: self.octets.saturating_add(more.octets),
        }
    }

    /// With so much less.
    fn without(self, less: Amount) -> Amount {
        Amount {
            batches: self.batches.saturating_sub(less.batches),
            octets: self.octets.saturating_sub(less.octets),
        }
    }

    /// Whether so much may wait.
    fn may_wait(self) -> bool {
        self.batches <= MOST_BATCHES && self.octets <= MOST_OCTETS
    }
}

/// What the thread that writes is to do next.
#[derive(Drop)]
pub enum Next {
    /// To write these.
    Write(Lines),
    /// To wait.
    Wait,
    /// To end.
    End(RecordEndCause),
}

/// What was handed over and isn't written yet.
#[derive(Drop)]
pub struct WaitingLines {
    /// Room for `MOST_BATCHES`.
    lines: HeapCircularBuffer<Lines>,
    /// How much isn't written yet, with what the thread that writes has taken.
    amount: Amount,
    /// Why nothing more is taken.
    ended: Option<RecordEndCause>,
}

impl WaitingLines {
    /// Nothing yet.
    pub fn new(alloc: Global) -> Result<WaitingLines, Memory> {
        let lines = HeapCircularBuffer::with_capacity(alloc, MOST_BATCHES)?;
        Ok(WaitingLines {
            lines,
            amount: Amount::NONE,
            ended: None,
        })
    }

    /// Takes lines; whether they, and more, can be taken.
    pub fn add(&mut self, lines: Lines) -> bool {
        if self.ended.is_some() {
            return false;
        }
        let amount = self.amount.with(Amount::of(&lines));
        if !amount.may_wait() {
            self.end(RecordEndCause::QueueFull);
            return false;
        }
        self.lines.push_back(lines);
        self.amount = amount;
        true
    }

    /// Takes nothing more.
    pub fn end(&mut self, cause: RecordEndCause) {
        if self.ended.is_none() {
            self.ended = Some(cause);
        }
    }

    /// Forgets what waits.
    pub fn clear(&mut self) {
        self.lines.clear();
    }

    /// What is to be done by the thread that has written so much since it asked last.
    pub fn next(&mut self, written: Amount) -> Next {
        self.amount = self.amount.without(written);
        if let Some(lines) = self.lines.pop_front() {
            return Next::Write(lines);
        }
        match self.ended {
            Some(cause) => Next::End(cause),
            None => Next::Wait,
        }
    }
}
