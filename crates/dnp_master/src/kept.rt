//! The octets of a response that are kept.
ghost use Rattle.std.specs.Prelude.{◌≡◌, ◌≤◌, length};

use std::marker::Model;

/// The most octets of a fragment.
const MOST: usize = 2048;

/// The octets of a response. They need no memory of their own.
#[derive(Drop)]
pub struct KeptOctets {
    octets: [u8; MOST],
    len: usize,
}

impl Model for KeptOctets {
    ghost use Rattle.std.specs.Prelude.{ℕ, ◌≤◌, List, take};

    ghost Value = { List ℕ };

    ghost view = { λ k. take k.len k.octets };

    ghost invariant = { λ k. k.len ≤ 2048 };
}

impl KeptOctets {
    /// These octets.
    pub fn of(octets: &[u8]) -> KeptOctets
        requires { length octets.now ≤ 2048 }
        ensures { result ≡ octets.now }
    {
        let mut kept = [0; MOST];
        kept[..octets.len()].copy_from_slice(octets);
        KeptOctets {
            octets: kept,
            len: octets.len(),
        }
    }

    /// An equal value.
    pub fn copy(&self) -> KeptOctets
        ensures { result ≡ self.now }
    {
        KeptOctets {
            octets: self.octets,
            len: self.len,
        }
    }

    /// The octets.
    pub fn as_slice(&self) -> &[u8]
        ensures { result.now ≡ self.now }
    {
        &self.octets[..self.len]
    }
}
