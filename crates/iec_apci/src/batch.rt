//! The octets of APDUs that are handed over together.
ghost use Rattle.std.specs.Prelude.{◌≡◌, ◌≤◌, ◌+◌, ◌++◌, [], length, nat_le};

use std::marker::Model;

/// The octets of the longest APDU.
pub const LONGEST_APDU: usize = 255;

/// How many octets there is room for: 16 of the longest APDUs.
const ROOM: usize = 4096;

/// The octets of APDUs, one after another, that are handed over together: one write to a socket costs as much for many
/// as for one. It takes no memory.
#[derive(Drop)]
pub struct Batch {
    octets: [u8; ROOM],
    used: usize,
}

impl Model for Batch {
    ghost use Rattle.std.specs.Prelude.{◌≤◌, List, ℕ, take};

    ghost Value = { List ℕ };

    ghost view = { λ b. take b.used b.octets };

    ghost invariant = { λ b. b.used ≤ 4096 };
}

impl Batch {
    /// Nothing.
    pub fn new() -> Batch
        ensures { result ≡ [] }
    {
        Batch {
            octets: [0; ROOM],
            used: 0,
        }
    }

    /// Forgets all.
    pub fn clear(&mut self)
        ensures { self.new ≡ [] }
    {
        self.used = 0;
    }

    /// Whether there is room for so many more octets.
    pub fn has_room(&self, count: usize) -> bool
        ensures { result ≡ nat_le (length self.now + count) 4096 }
    {
        count <= ROOM && self.used <= ROOM - count
    }

    /// Adds octets behind the others.
    pub fn add(&mut self, octets: &[u8])
        requires { length self.old + length octets.now ≤ 4096 }
        ensures { self.new ≡ self.old ++ octets.now }
    {
        let end = self.used + octets.len();
        self.octets[self.used..end].copy_from_slice(octets);
        self.used = end;
    }

    /// The octets.
    pub fn as_slice(&self) -> &[u8]
        ensures { result.now ≡ self.now }
    {
        &self.octets[..self.used]
    }
}
