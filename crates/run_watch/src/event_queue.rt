//! Spontaneous observations on their way to a file.

use gw_model::{Memory, Observation};
use run_clock::Bell;
use run_values::{Entry, WaitingEvents};
use std::alloc::{AllocError, Global};
use std::sync::atomic::{AtomicU64, Ordering};
use std::sync::{Mutex, Wait};

/// Spontaneous observations from the thread that follows them to the one that writes them. It is no buffer for control centres.
#[derive(Drop)]
pub struct EventQueue {
    waiting: Mutex<WaitingEvents>,
    bell: Bell,
    /// How many were left out so far.
    left_out: AtomicU64,
}

impl EventQueue {
    /// Nothing yet.
    pub fn new(alloc: Global) -> Result<EventQueue, Memory> {
        Ok(EventQueue {
            waiting: Mutex::new(WaitingEvents::new(alloc)?),
            bell: Bell::new(),
            left_out: AtomicU64::new(0),
        })
    }

    /// Adds observations that were told at a moment. Those that find no room are left out.
    pub(crate) fn add<R: Wait>(&self, rt: &R, wall: u64, observations: &[Observation]) {
        let left_out = self.waiting.lock(rt).add(wall, observations);
        self.left_out.fetch_add(left_out, Ordering::SeqCst);
        self.bell.ring();
    }

    /// So many are left out at a moment.
    pub(crate) fn leave_out<R: Wait>(&self, rt: &R, wall: u64, count: u64) {
        self.waiting.lock(rt).leave_out(wall, count);
        self.left_out.fetch_add(count, Ordering::SeqCst);
        self.bell.ring();
    }

    /// So many that were taken weren't written.
    pub fn note_unwritten(&self, count: u64) {
        self.left_out.fetch_add(count, Ordering::SeqCst);
    }

    /// How many were left out so far.
    pub fn left_out(&self) -> u64 {
        self.left_out.load(Ordering::SeqCst)
    }

    /// Nothing more comes.
    pub fn close<R: Wait>(&self, rt: &R) {
        self.waiting.lock(rt).close();
        self.bell.ring();
    }

    /// Whether nothing more comes.
    pub fn is_closed<R: Wait>(&self, rt: &R) -> bool {
        self.waiting.lock(rt).is_closed()
    }

    /// Moves what waited longest behind others, so much at most. Whether nothing waits any more, and nothing will.
    pub fn take<R: Wait>(
        &self,
        rt: &R,
        most: usize,
        entries: &mut Vec<Entry>,
    ) -> Result<bool, AllocError> {
        self.waiting.lock(rt).take(most, entries)
    }

    /// What rings where there may be more to take.
    pub fn bell(&self) -> &Bell {
        &self.bell
    }
}
