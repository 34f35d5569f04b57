//! One way of a connection.

use crate::random::Random;
use std::alloc::Global;
use std::collections::VecDeque;

/// Octets on their way.
#[derive(Drop)]
pub struct Piece {
    /// When they arrive.
    pub due: u64,
    pub octets: Vec<u8>,
    /// How many observations the fragment brings that ends with them.
    pub observations: u64,
}

/// What becomes of octets on their way.
#[derive(Clone, Copy)]
pub struct Weather {
    /// The milliseconds that they take at most.
    pub latency: u64,
    /// How often in a thousand they come in two pieces.
    pub cut: u64,
    /// The milliseconds for which they stand still at most.
    pub stall: u64,
}

/// Octets on their way to one end of a connection. They arrive in order.
#[derive(Drop)]
pub struct Pipe {
    alloc: Global,
    weather: Weather,
    random: Random,
    pieces: VecDeque<Piece>,
    /// When the last of them arrive.
    last: u64,
}

/// The milliseconds from one stall to the next, on the average.
const STALLS_MS: u64 = 60_000;

impl Pipe {
    /// Nothing is on its way.
    pub fn new(alloc: Global, weather: Weather, random: Random) -> Pipe {
        Pipe {
            alloc,
            weather,
            random,
            pieces: VecDeque::new(alloc),
            last: 0,
        }
    }

    /// Octets are sent at a moment.
    pub fn send(&mut self, now: u64, octets: &[u8], observations: u64) {
        if octets.is_empty() {
            return;
        }
        let Weather {
            latency,
            cut,
            stall,
        } = self.weather;
        let mut due = now.saturating_add(self.random.between(latency / 2, latency));
        // A stall comes to what is sent, so often that it is rare.
        if stall > 0 && self.random.below(STALLS_MS) < 100 {
            due = due.saturating_add(self.random.below(stall));
        }
        if self.random.happens(cut) {
            let (front, back) = octets.split_at(
                self.random.below(octets.len() as u64) as usize % octets.len(),
            );
            self.put(due, front, 0);
            let later = due.saturating_add(self.random.below(50));
            self.put(later, back, observations);
        } else {
            self.put(due, octets, observations);
        }
    }

    /// Octets arrive at a moment, or behind those before them.
    fn put(&mut self, due: u64, octets: &[u8], observations: u64) {
        if octets.is_empty() {
            return;
        }
        self.last = self.last.max(due);
        if let Ok(octets) = Vec::from_slice(self.alloc, octets) {
            let _ = self.pieces.push_back(Piece {
                due: self.last,
                octets,
                observations,
            });
        }
    }

    /// When the next octets arrive.
    pub fn due(&self) -> u64 {
        match self.pieces.front() {
            Some(piece) => piece.due,
            None => u64::MAX,
        }
    }

    /// How many observations the fragment brings that ends with the next octets.
    pub fn observations(&self) -> u64 {
        match self.pieces.front() {
            Some(piece) => piece.observations,
            None => 0,
        }
    }

    /// The octets that have arrived at a moment.
    pub fn take(&mut self, now: u64) -> Option<Piece> {
        if self.due() <= now {
            self.pieces.pop_front()
        } else {
            None
        }
    }

    /// What is on its way arrives later by so many milliseconds at least.
    pub fn hold(&mut self, until: u64) {
        self.last = self.last.max(until);
        if let Some(piece) = self.pieces.front_mut() {
            piece.due = piece.due.max(until);
        }
    }

    /// How many pieces are on their way.
    pub fn count(&self) -> u64 {
        self.pieces.len() as u64
    }

    /// The connection is cut off: of what is on its way a front arrives, cut at any octet.
    pub fn cut_off(&mut self) {
        let most = self.count().saturating_add(1);
        let kept = self.random.below(most);
        self.pieces.truncate(kept as usize);
        let lot = self.random.next();
        if let Some(piece) = self.pieces.back_mut() {
            cut(piece, lot);
        }
    }

    /// Nothing is on its way any more.
    pub fn clear(&mut self) {
        self.pieces.clear();
        self.last = 0;
    }
}

/// Takes some octets away from the end of a piece, but for one.
fn cut(piece: &mut Piece, lot: u64) {
    let count = lot.checked_rem(piece.octets.len() as u64).unwrap_or(0);
    piece.octets.truncate((count as usize).saturating_add(1));
    piece.observations = 0;
}
