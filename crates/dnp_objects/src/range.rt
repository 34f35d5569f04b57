//! Range fields: how many objects a header has, and from which index on.
ghost use Rattle.std.specs.Prelude.{◌≡◌, ◌≢◌, ◌≤◌, length, take, IfOk, IfErr};
ghost use Rattle.dnp_objects.specs.Headers.{number, octets_of, is_among, codes_of, qualifiers, range_of, range_for, range_at};

use crate::fault::{HeaderFault, ObjectFault};
use crate::numbers::number;
use crate::object::Access;

/// How many octets a number of a range field has.
#[derive(Clone, Copy)]
pub enum Width {
    One,
    Two,
}

/// How a qualifier gives the range (IEEE Std 1815, 4.2.2.7.3).
#[derive(Clone, Copy)]
pub enum Range {
    /// A first and a last index.
    StartStop(Width),
    /// A count, and so many octets of index before each object.
    Count(Width, u8),
}

/// What a range field gives.
#[derive(Clone, Copy)]
pub struct RangeField {
    /// How many octets the field has.
    pub octets: usize,
    /// The first index, or 0 where a count alone is given.
    pub first: u16,
    pub count: u32,
    /// How many octets of index stand before each object.
    pub prefix: u8,
}

fn octets_of(width: Width) -> usize
    ensures value { result ≡ octets_of width }
    ensures small { result ≤ 2 }
{
    match width {
        Width::One => 1,
        Width::Two => 2,
    }
}

/// The number at the front of a field, low octet first.
#[tactic(auto, using(crate::proofs::NumberLaws::in_two_octets))]
fn number_at(width: Width, field: &[u8]) -> u16
    requires { octets_of width ≤ length field.now }
    ensures { result ≡ number (take (octets_of width) field.now) }
{
    number(&field[..octets_of(width)]) as u16
}

/// The qualifier code is one of those that objects may stand under.
fn is_allowed(access: Access, code: u8) -> bool
    ensures { result ≡ is_among code (codes_of access) }
{
    match access {
        Access::Ranges => matches!(code, 0x00 | 0x01),
        Access::Counts => matches!(code, 0x07 | 0x08),
        Access::Indexes => matches!(code, 0x17 | 0x18 | 0x27 | 0x28),
        Access::RangesAndIndexes => matches!(code, 0x00 | 0x01 | 0x17 | 0x18 | 0x27 | 0x28),
    }
}

/// How a qualifier code gives the range.
fn range_of(code: u8) -> Option<Range>
    ensures { result ≡ range_of qualifiers code }
{
    match code {
        0x00 => Some(Range::StartStop(Width::One)),
        0x01 => Some(Range::StartStop(Width::Two)),
        0x07 => Some(Range::Count(Width::One, 0)),
        0x08 => Some(Range::Count(Width::Two, 0)),
        0x17 => Some(Range::Count(Width::One, 1)),
        0x18 => Some(Range::Count(Width::Two, 1)),
        0x27 => Some(Range::Count(Width::One, 2)),
        0x28 => Some(Range::Count(Width::Two, 2)),
        _ => None,
    }
}

/// How a qualifier code gives the range, where objects may stand under it.
pub fn range_for(access: Access, code: u8) -> Option<Range>
    ensures { result ≡ range_for access code }
{
    if is_allowed(access, code) {
        range_of(code)
    } else {
        None
    }
}

fn start_stop_at(place: usize, width: Width, field: &[u8]) -> Result<RangeField, ObjectFault>
    ensures read { result ≡ range_at place (Range.StartStop width) field.now }
    ensures within { IfOk result (λ range. range.octets ≤ length field.now) }
    ensures place { IfErr result (λ fault. fault.place ≡ place) }
    ensures no_memory { IfErr result (λ fault. fault.why ≢ HeaderFault.Memory) }
{
    let octets = octets_of(width);
    if field.len() < octets + octets {
        return Err(HeaderFault::ShortRange.at(place));
    }
    let first = number_at(width, field);
    let last = number_at(width, &field[octets..]);
    if last < first {
        return Err(HeaderFault::StopBeforeStart.at(place));
    }
    Ok(RangeField {
        octets: octets + octets,
        first,
        count: u32::from(last - first) + 1,
        prefix: 0,
    })
}

fn count_at(place: usize, width: Width, prefix: u8, field: &[u8]) -> Result<RangeField, ObjectFault>
    ensures read { result ≡ range_at place (Range.Count width prefix) field.now }
    ensures within { IfOk result (λ range. range.octets ≤ length field.now) }
    ensures place { IfErr result (λ fault. fault.place ≡ place) }
    ensures no_memory { IfErr result (λ fault. fault.why ≢ HeaderFault.Memory) }
{
    let octets = octets_of(width);
    if field.len() < octets {
        return Err(HeaderFault::ShortRange.at(place));
    }
    Ok(RangeField {
        octets,
        first: 0,
        count: u32::from(number_at(width, field)),
        prefix,
    })
}

/// What the range field at the front of octets gives, for the header at this place.
pub fn range_at(place: usize, range: Range, field: &[u8]) -> Result<RangeField, ObjectFault>
    ensures read { result ≡ range_at place range field.now }
    ensures within { IfOk result (λ range. range.octets ≤ length field.now) }
    ensures place { IfErr result (λ fault. fault.place ≡ place) }
    ensures no_memory { IfErr result (λ fault. fault.why ≢ HeaderFault.Memory) }
{
    match range {
        Range::StartStop(width) => start_stop_at(place, width, field),
        Range::Count(width, prefix) => count_at(place, width, prefix, field),
    }
}
