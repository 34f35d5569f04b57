//! A fragment that has begun.
ghost use Rattle.std.specs.Prelude.{◌≡◌, ◌+◌, ◌%◌, ◌≤◌, IsTrue, IfOk, length, Option, Some};
ghost use Rattle.dnp_transport.specs.Segment.{sequence, carried_octets, is_whole};
ghost use Rattle.dnp_transport.specs.Series.{step_without_first, answer_of};

use crate::FRAGMENT_LIMIT;
use crate::answer::{DropCause, Taken};
use crate::header::{carried_octets, is_final, sequence};
use std::alloc::{AllocError, Global};
use std::marker::Model;

/// The sequence number that goes on with the fragment, and its octets so far, with room for all
/// that it may get.
#[derive(Drop)]
pub struct Series {
    next: u8,
    octets: Vec<u8>,
}

impl Model for Series {
    ghost use Rattle.std.specs.Prelude.{◌≤◌, vec_len, vec_capacity};
    ghost use Rattle.dnp_transport.specs.Series.{Series};

    ghost Value = { Series };

    ghost view = { λ s. record { next = s.next; octets = s.octets.items } };

    ghost invariant = { λ s. (vec_len s.octets ≤ 2048) × (2048 ≤ vec_capacity s.octets) };
}

impl Series {
    /// Begins a fragment with a segment of at most 2,048 octets.
    pub fn begin(alloc: Global, segment: &[u8]) -> Result<Series, AllocError>
        requires whole { IsTrue (is_whole segment.now) }
        requires within { length (carried_octets segment.now) ≤ 2048 }
        ensures { IfOk result (λ s. (s.next ≡ (sequence segment.now + 1) % 64)
            × (s.octets ≡ carried_octets segment.now)) }
    {
        let mut octets = Vec::with_capacity(alloc, FRAGMENT_LIMIT)?;
        octets.extend_from_slice(carried_octets(segment))?;
        Ok(Series {
            next: (sequence(segment) + 1) % 64,
            octets,
        })
    }

    /// Takes a segment without FIR, and tells what is left.
    pub fn join(self, segment: &[u8]) -> (Taken, Option<Series>)
        requires { IsTrue (is_whole segment.now) }
        ensures { (answer_of result.0, result.1) ≡ step_without_first (Some self) segment.now }
    {
        if sequence(segment) != self.next {
            return (Taken::Dropped(DropCause::Gap), None);
        }
        let part = carried_octets(segment);
        if part.len() > FRAGMENT_LIMIT - self.octets.len() {
            return (Taken::Dropped(DropCause::TooLong), None);
        }
        let Series { mut octets, .. } = self;
        octets.extend_from_slice(part).unwrap();
        if is_final(segment) {
            return (Taken::Fragment(octets), None);
        }
        let next = (sequence(segment) + 1) % 64;
        (Taken::More, Some(Series { next, octets }))
    }
}
