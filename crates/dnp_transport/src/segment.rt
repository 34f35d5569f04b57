//! One segment to be sent.
ghost use Rattle.std.specs.Prelude.{◌≡◌, ◌≤◌, ◌∷◌, length};

use std::marker::Model;

/// A segment of 2 to 250 octets, header first.
#[derive(Drop)]
pub struct Segment {
    octets: [u8; 250],
    len: usize,
}

impl Model for Segment {
    ghost use Rattle.std.specs.Prelude.{ℕ, ◌≤◌, List, take};

    ghost Value = { List ℕ };

    ghost view = { λ s. take s.len s.octets };

    ghost invariant = { λ s. (2 ≤ s.len) × (s.len ≤ 250) };
}

impl Segment {
    /// A header and the octets that the segment carries.
    pub(crate) fn new(header: u8, carried: &[u8]) -> Segment
        requires some { 1 ≤ length carried.now }
        requires within { length carried.now ≤ 249 }
        ensures { result ≡ header ∷ carried.now }
    {
        let mut octets = [0; 250];
        octets[0] = header;
        let len = 1 + carried.len();
        octets[1..len].copy_from_slice(carried);
        Segment { octets, len }
    }

    /// The header and the octets after it, to be sent as the user data of one link frame.
    pub fn octets(&self) -> &[u8]
        ensures octets { result.now ≡ self.now }
        ensures within { (2 ≤ length result.now) × (length result.now ≤ 250) }
    {
        &self.octets[..self.len]
    }
}
