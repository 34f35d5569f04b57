//! A queue of octets.
ghost use Rattle.std.specs.Prelude.{◌≡◌, ◌*◌, ◌≤◌, [], ◌++◌, length, drop, IsOk, OnOk, OnErr};

use crate::memory::Memory;
use std::alloc::Global;
use std::marker::Model;

/// Octets in a queue. Those at the front may be used up, and are kept for a while still: a contract sees
/// the octets that are left, and how many are kept, used up or not.
#[derive(Drop)]
pub struct OctetQueue {
    octets: Vec<u8>,
    /// How many of them are used up.
    used: usize,
}

impl Model for OctetQueue {
    ghost use Rattle.std.specs.Prelude.{◌≤◌, drop, vec_len};
    ghost use Rattle.gw_model.specs.Queue.{Queue};

    ghost Value = { Queue };

    ghost view = { λ q. record { left = drop q.used q.octets.items; kept = vec_len q.octets } };

    ghost invariant = { λ q. q.used ≤ vec_len q.octets };
}

impl OctetQueue {
    /// No octets. The queue keeps the allocator.
    pub fn new(alloc: Global) -> OctetQueue
        ensures { result ≡ record { left = []; kept = 0 } }
    {
        OctetQueue {
            octets: Vec::new(alloc),
            used: 0,
        }
    }

    /// The octets that are left.
    pub fn rest(&self) -> &[u8]
        ensures { result.now ≡ self.now.left }
    {
        &self.octets[self.used..]
    }

    /// Adds octets at the end.
    pub fn add(&mut self, piece: &[u8]) -> Result<(), Memory>
        ensures ok { OnOk result (self.new.left ≡ self.old.left ++ piece.now) }
        ensures err { OnErr result (self.new.left ≡ self.old.left) }

        // No more than half of what is kept is used up.
        ensures bounded { self.new.kept ≤ 2 * length self.new.left }

        // Nothing needs no memory.
        ensures nothing { piece.now ≡ [] → IsOk result }
    {
        self.remove_used();
        if piece.is_empty() {
            return Ok(());
        }
        self.octets.extend_from_slice(piece)?;
        Ok(())
    }

    /// Uses up the first of the octets that are left.
    pub fn use_up(&mut self, count: usize)
        requires { count ≤ length self.old.left }
        ensures { self.new ≡ record self.old { left = drop count self.old.left } }
    {
        self.used += count;
    }

    /// Lets all octets go.
    pub fn clear(&mut self)
        ensures { self.new ≡ record { left = []; kept = 0 } }
    {
        self.octets.clear();
        self.used = 0;
    }

    /// Removes what is used up, once it is as long as what is left: so an octet moves once on average.
    fn remove_used(&mut self)
        ensures left { self.new.left ≡ self.old.left }
        ensures bounded { self.new.kept ≤ 2 * length self.new.left }
    {
        let left = self.octets.len() - self.used;
        if left <= self.used {
            self.octets.copy_within(self.used.., 0);
            self.octets.truncate(left);
            self.used = 0;
        }
    }
}
