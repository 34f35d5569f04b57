//! The segments that carry a fragment.
ghost use Rattle.std.specs.Prelude.{◌≡◌, ◌≤◌, ◌<◌, length};
ghost use Rattle.std.specs.Iterator.{YieldsFirst, item_count};
ghost use Rattle.dnp_transport.specs.Cut.{segments_of, header_of};

use crate::segment::Segment;
use std::marker::Model;

/// The most octets of a fragment that one segment carries.
const SEGMENT_LIMIT: usize = 249;

/// The segments of a fragment that are left, one after another.
#[derive(Drop)]
pub struct SegmentIter<'a> {
    rest: &'a [u8],
    sequence: u8,
    is_first: bool,
}

impl<'a> Model for SegmentIter<'a> {
    ghost use Rattle.std.specs.Prelude.{ℕ, ◌<◌, List};
    ghost use Rattle.dnp_transport.specs.Cut.{segments_from};

    ghost Value = { List (List ℕ) };

    ghost view = { λ s. segments_from s.is_first s.sequence s.rest.now };

    ghost invariant = { λ s. s.sequence < 64 };
}

/// The segments of a fragment of at most 2,048 octets: each carries 249 octets, the last what is
/// left. FIR is on the first, FIN on the last, and sequence numbers go from `first` on, modulo 64.
/// An empty fragment has none.
pub fn segments(fragment: &[u8], first: u8) -> SegmentIter<'_>
    requires within { length fragment.now ≤ 2048 }
    requires sequence { first < 64 }
    ensures { result ≡ segments_of fragment.now first }
{
    SegmentIter {
        rest: fragment,
        sequence: first,
        is_first: true,
    }
}

impl<'a> Iterator for SegmentIter<'a> {
    type Item = Segment;

    ghost next_gives = { YieldsFirst (λ s. s) };

    ghost remaining = { item_count (λ s. s) };

    fn next(&mut self) -> Option<Segment> {
        if self.rest.is_empty() {
            return None;
        }
        let len = SEGMENT_LIMIT.min(self.rest.len());
        let (carried, rest) = self.rest.split_at(len);
        let header = header(rest.is_empty(), self.is_first, self.sequence);
        self.rest = rest;
        self.sequence = (self.sequence + 1) % 64;
        self.is_first = false;
        Some(Segment::new(header, carried))
    }
}

/// FIN, FIR and a sequence number as one octet.
fn header(is_final: bool, is_first: bool, sequence: u8) -> u8
    requires { sequence < 64 }
    ensures { result ≡ header_of is_final is_first sequence }
{
    let last = if is_final { 0x80 } else { 0 };
    let first = if is_first { 0x40 } else { 0 };
    last + first + sequence
}
