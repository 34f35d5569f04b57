//! The last news, kept once for all clients.
ghost use Rattle.std.specs.Prelude.{◌≡◌, ◌+◌, ◌-◌, ◌<◌, ◌≤◌, ◌^◌, [], ◌++◌, length, slice_get, IfOk};
ghost use Rattle.circular_buffer.specs.Buffer.{buffer};
ghost use Rattle.gw_station.specs.Ring.{empty_ring_after, news_from, oldest, ring_with};

use crate::queue::refill;
use circular_buffer::HeapCircularBuffer;
use gw_model::{Memory, Observation};
use std::alloc::Global;
use std::marker::Model;

/// The last news, as many as may wait for a client, and how many there were. Each has as its number how many came
/// before it.
#[derive(Drop)]
pub struct NewsRing {
    news: HeapCircularBuffer<Observation>,
    /// The number of the next.
    next: u64,
}

impl Model for NewsRing {
    ghost use Rattle.std.specs.Prelude.{◌≤◌, length};
    ghost use Rattle.gw_station.specs.Ring.{Ring};

    ghost Value = { Ring };

    ghost view = { λ r. record { items = r.news.items; limit = r.news.capacity; next = r.next } };

    ghost invariant = { λ r. (length r.news.items ≤ r.news.capacity) × (length r.news.items ≤ r.next) };
}

impl NewsRing {
    /// A ring without news, which keeps so many, after so many that it didn't keep.
    pub fn new(alloc: Global, limit: u32, next: u64) -> Result<NewsRing, Memory>
        ensures { IfOk result (λ ring. ring ≡ empty_ring_after next limit) }
    {
        let news = HeapCircularBuffer::with_capacity(alloc, limit as usize)?;
        Ok(NewsRing { news, next })
    }

    /// An equal value.
    pub fn copy(&self) -> Result<NewsRing, Memory>
        ensures { IfOk result (λ copy. copy ≡ self.now) }
    {
        let room = HeapCircularBuffer::with_capacity(*self.news.allocator(), self.news.capacity())?;
        Ok(self.copy_into(room))
    }

    /// The same, in the memory of a ring that isn't needed any more where that has the same room.
    pub fn copy_over(&self, spare: NewsRing) -> Result<NewsRing, Memory>
        ensures { IfOk result (λ copy. copy ≡ self.now) }
    {
        let mut room = spare.news;
        if room.capacity() != self.news.capacity() {
            return self.copy();
        }
        room.clear();
        Ok(self.copy_into(room))
    }

    fn copy_into(&self, room: HeapCircularBuffer<Observation>) -> NewsRing
        requires { room ≡ buffer [] self.now.limit }
        ensures { result ≡ self.now }
    {
        NewsRing {
            news: refill(room, &self.news),
            next: self.next,
        }
    }

    /// One more came; the oldest goes where there would be too many.
    pub fn push(&mut self, news: Observation)
        requires { self.old.next + 1 < 2 ^ 64 }
        ensures ring { self.new ≡ ring_with news self.old }
        // What every ring keeps.
        ensures kept { (length self.old.items ≤ self.old.limit) × (length self.old.items ≤ self.old.next) }
    {
        self.news.push_back(news);
        self.next += 1;
    }

    /// How many there were.
    pub fn next(&self) -> u64
        ensures next { result ≡ self.now.next }
        // What every ring keeps.
        ensures within { length self.now.items ≤ self.now.next }
    {
        self.next
    }

    /// The number of the oldest that is kept.
    pub(crate) fn oldest(&self) -> u64
        ensures oldest { result ≡ oldest self.now }
        ensures within { (length self.now.items ≤ self.now.next) × (self.now.next < 2 ^ 64) }
    {
        self.next - self.news.len() as u64
    }

    /// How many there are from a number on.
    pub(crate) fn count_from(&self, number: u64) -> usize
        ensures { result ≡ length (news_from number self.now) }
    {
        self.news.len().saturating_sub(self.place_of(number))
    }

    /// The first of them.
    pub(crate) fn first_from(&self, number: u64) -> Option<Observation>
        ensures { result ≡ slice_get (news_from number self.now) 0 }
    {
        self.news.get(self.place_of(number)).copied()
    }

    /// All of them, in two slices.
    pub(crate) fn slices_from(&self, number: u64) -> (&[Observation], &[Observation])
        ensures { result.0.now ++ result.1.now ≡ news_from number self.now }
    {
        let place = self.place_of(number);
        let (front, back) = self.news.as_slices();
        if place < front.len() {
            return (&front[place..], back);
        }
        let place = place - front.len();
        if place < back.len() {
            (&back[place..], &[])
        } else {
            (&[], &[])
        }
    }

    /// At which place of the ring a number is, or would be.
    fn place_of(&self, number: u64) -> usize
        ensures { result ≡ number - oldest self.now }
    {
        number.saturating_sub(self.oldest()) as usize
    }
}
