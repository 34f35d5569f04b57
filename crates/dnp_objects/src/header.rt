//! Object headers: which objects stand in a part, and where.
ghost use Rattle.std.specs.Prelude.{◌≡◌, ◌≢◌, ◌+◌, ◌^◌, ◌<◌, length, List, Ok, IfOk, IfErr};
ghost use Rattle.gw_model.specs.Outcome.{Gives};
ghost use Rattle.dnp_objects.specs.Headers.{is_memory, body_length, header_at, headers_of, IsPart, IsStoredAt};

use crate::fault::{HeaderFault, ObjectFault};
use crate::object::{Size, form_of};
use crate::range::{range_at, range_for};
use std::alloc::Global;

/// The most headers that a part may have.
const MOST_HEADERS: usize = 512;

/// An object header, and where its objects stand in the part.
#[derive(Clone, Copy)]
pub struct Header {
    /// The object group.
    pub group: u8,
    /// The variation of the group.
    pub variation: u8,
    /// The index of the first object, where the range is a start and a stop, and else 0.
    pub first: u16,
    /// How many objects follow.
    pub count: u32,
    /// How many octets of index stand before each object: 0, 1 or 2.
    pub prefix: u8,
    /// The header's first octet in the part.
    pub place: usize,
    /// The first octet of its objects in the part.
    pub start: usize,
}

/// How many octets so many objects have, each after its index.
fn body_length(size: Size, count: u32, prefix: u8) -> usize
    ensures { result ≡ body_length size count prefix }
{
    let count = count as usize;
    match size {
        Size::Octets(octets) => count * (usize::from(prefix) + usize::from(octets)),
        Size::Bits(bits) => (count * usize::from(bits) + 7) / 8,
    }
}

/// The header at the front of octets, and the octets after its objects.
fn header_at(place: usize, front: &[u8]) -> Result<(Header, &[u8]), ObjectFault>
    requires { place + length front.now < 2 ^ 64 }
    ensures read { Gives is_memory (λ x. (x.0, x.1.now)) result (header_at place front.now) }
    ensures goes { IfOk result (λ x. length x.1.now < length front.now) }
    ensures place { IfErr result (λ fault. fault.place ≡ place) }
    ensures no_memory { IfErr result (λ fault. fault.why ≢ HeaderFault.Memory) }
{
    if front.len() < 3 {
        return Err(HeaderFault::ShortRange.at(place));
    }
    let (group, variation, code) = (front[0], front[1], front[2]);
    let Some(form) = form_of(group, variation) else {
        return Err(HeaderFault::UnknownObject.at(place));
    };
    let Some(range) = range_for(form.access, code) else {
        return Err(HeaderFault::UnknownQualifier.at(place));
    };
    let field = &front[3..];
    let ranged = match range_at(place, range, field) {
        Ok(ranged) => ranged,
        Err(fault) => return Err(fault),
    };
    let start = 3 + ranged.octets;
    let body = body_length(form.size, ranged.count, ranged.prefix);
    if front.len() - start < body {
        return Err(HeaderFault::ShortData.at(place));
    }
    let header = Header {
        group,
        variation,
        first: ranged.first,
        count: ranged.count,
        prefix: ranged.prefix,
        place,
        start: place + start,
    };
    Ok((header, &front[start + body..]))
}

/// The headers of a part, read from left to right.
fn all_headers(alloc: Global, part: &[u8]) -> Result<Vec<Header>, ObjectFault>
    ensures exact { Gives is_memory (λ v. v.items) result (headers_of part.now) }
    ensures place { IfErr result (λ fault. fault.place < length part.now) }
    ensures memory { IfErr result (λ fault. fault.why ≡ HeaderFault.Memory → IsStoredAt part.now fault.place) }
{
    let mut found = Vec::new(alloc);
    let mut rest = part;
    while !rest.is_empty() {
        let place = part.len() - rest.len();
        if found.len() == MOST_HEADERS {
            return Err(HeaderFault::TooMany.at(place));
        }
        let (header, after) = match header_at(place, rest) {
            Ok(read) => read,
            Err(fault) => return Err(fault),
        };
        if found.push(header).is_err() {
            return Err(HeaderFault::Memory.at(place));
        }
        rest = after;
    }
    Ok(found)
}

/// The object headers of a part: at most 512, each with its objects after it.
///
/// A fault is the first one from left to right, with the place of its header.
pub fn headers(alloc: Global, part: &[u8]) -> Result<Vec<Header>, ObjectFault>
    // What is read is spelled so.
    ensures found { IfOk result (λ v. IsPart part.now v.items) }
    // What is spelled so is read, unless memory runs out.
    ensures only { (hs : List Header) → IsPart part.now hs → Gives is_memory (λ v. v.items) result (Ok hs) }
    // Which fault it is.
    ensures exact { Gives is_memory (λ v. v.items) result (headers_of part.now) }
    // Each fault is told of a place in the part; memory runs out only where a header is stored.
    ensures place { IfErr result (λ fault. fault.place < length part.now) }
    ensures memory { IfErr result (λ fault. fault.why ≡ HeaderFault.Memory → IsStoredAt part.now fault.place) }
{
    all_headers(alloc, part)
}
