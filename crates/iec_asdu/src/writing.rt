//! Writing ASDUs with process information.
ghost use Rattle.std.specs.Prelude.{◌≡◌, ◌+◌, ◌*◌, ◌<◌, ◌≤◌, ◌∷◌, ◌++◌};
ghost use Rattle.std.specs.Prelude.{length, take, drop, is_some, All, IfSome, IsSomeAnd};
ghost use Rattle.std.specs.List.{flat_map};
ghost use Rattle.std.specs.Int.{w16, to_le_bytes};
ghost use Rattle.gw_model.specs.Fit.{HasWidth, IsFit};
ghost use Rattle.gw_time.specs.Spelling.{tag_of};
ghost use Rattle.gw_time.specs.Rule.{clocks_of};
ghost use Rattle.iec_asdu.specs.Asdu.{monitor_types, asdu_meaning};
ghost use Rattle.iec_asdu.specs.Packing.{type_at, alike_count, apart_count, in_sequence_count, is_in_sequence, taken_of, packed_spelling};
ghost use Rattle.iec_asdu.specs.Types.{identification_by, type_length};
ghost use Rattle.iec_asdu.specs.Spelling.{element_spelling, element_octets, address_octets, object_octets};
ghost use Rattle.iec_asdu.specs.Spelling.{object_octets_with, objects_octets, qualifier_of};
ghost use Rattle.iec_asdu.specs.Buffer.{Writes};

use crate::elements::{BitString, CounterReading, DoublePoint, ScaledValue, SinglePoint};
use crate::packing::{front, room_apart, sequence_behind};
use crate::sizes::{ADDRESS_OCTETS, HEADER_OCTETS, TAG_OCTETS};
use crate::types::{ElementKind, MonitorType};
use gw_model::{Element, Observation, Quality, Value};
use gw_time::{Zone, to_tag};

/// The cause of transmission spontaneous (IEC 60870-5-101, 7.2.3).
pub const SPONTANEOUS: u8 = 3;

/// SQ, bit 7 of the variable structure qualifier.
const SEQUENCE: u8 = 128;

/// What became of a list of observations.
#[derive(Clone, Copy)]
pub struct Written {
    /// How many octets the ASDU has, at the front of the buffer.
    pub octets: usize,
    /// How many observations it carries, from the front of the list.
    pub taken: usize,
}

/// Writes the element of a value. Answers where it ends.
fn write_element(value: Value, quality: Quality, start: usize, out: &mut [u8; 249]) -> usize
    requires { start + length (element_spelling value quality) ≤ 249 }
    ensures written { Writes start result out.old out.new (element_spelling value quality) }
    ensures width { HasWidth value }
{
    match value {
        Value::Single(on) => {
            SinglePoint { on, quality }.write(&mut out[start..start + 1]);
            start + 1
        }
        Value::Double(state) => {
            DoublePoint { state, quality }.write(&mut out[start..start + 1]);
            start + 1
        }
        Value::Word(word) => {
            BitString { word, quality }.write(&mut out[start..start + 5]);
            start + 5
        }
        Value::Scaled(value) => {
            ScaledValue { value, quality }.write(&mut out[start..start + 3]);
            start + 3
        }
        Value::Total(count) => {
            CounterReading { count, quality }.write(&mut out[start..start + 5]);
            start + 5
        }
    }
}

/// Writes an address. Answers where it ends.
fn write_address(address: u32, start: usize, out: &mut [u8; 249]) -> usize
    requires { start + 3 ≤ 249 }
    ensures { Writes start result out.old out.new (address_octets address) }
{
    let [a, b, c, _] = address.to_le_bytes();
    out[start..start + ADDRESS_OCTETS].copy_from_slice(&[a, b, c]);
    start + ADDRESS_OCTETS
}

/// Writes an object with its address, and with its time tag, if it has one. Answers where it ends.
fn write_object(
    observation: &Observation,
    tag: Option<[u8; 7]>,
    start: usize,
    out: &mut [u8; 249],
) -> usize
    requires { start + length (object_octets_with tag observation.now) ≤ 249 }
    ensures written { Writes start result out.old out.new (object_octets_with tag observation.now) }
    ensures width { HasWidth observation.now.value }
{
    let behind = write_address(observation.address, start, out);
    let end = write_element(observation.value, observation.quality, behind, out);
    let Some(tag) = tag else {
        return end;
    };
    out[end..end + TAG_OCTETS].copy_from_slice(&tag);
    end + TAG_OCTETS
}

/// Writes the objects of as many from the front as are like the first one, of this type, each with its address.
fn write_alike(
    first: &Observation,
    others: &[Observation],
    kind: MonitorType,
    zone: &Zone,
    start: usize,
    out: &mut [u8; 249],
) -> Written
    requires kind { kind ≡ type_at (clocks_of zone.now) first.now }
    requires room { start + length others.now * (3 + type_length kind) ≤ 249 }
    ensures taken { result.taken ≡ alike_count (clocks_of zone.now) first.now others.now }
    ensures written { Writes start result.octets out.old out.new
        (flat_map (object_octets (clocks_of zone.now)) (take result.taken others.now)) }
    ensures width { All (λ x. HasWidth x.value) (take result.taken others.now) }
{
    let mut written = Written {
        octets: start,
        taken: 0,
    };
    for observation in others {
        if observation.common != first.common {
            return written;
        }
        if ElementKind::of(observation.value) != kind.element {
            return written;
        }
        let tag = to_tag(observation.stamp, zone);
        if tag.is_some() != kind.timed {
            return written;
        }
        written.octets = write_object(observation, tag, written.octets, out);
        written.taken += 1;
    }
    written
}

/// Writes the objects under SQ 0: of the first one, of this type with this time tag or none, and behind it of as many as
/// are like it and fit.
fn write_apart(
    first: &Observation,
    others: &[Observation],
    tag: Option<[u8; 7]>,
    kind: MonitorType,
    zone: &Zone,
    out: &mut [u8; 249],
) -> Written
    requires tag { tag ≡ tag_of (clocks_of zone.now) first.now.stamp }
    requires kind { kind ≡ type_at (clocks_of zone.now) first.now }
    ensures taken { result.taken ≡ apart_count (clocks_of zone.now) (first.now ∷ others.now) }
    ensures written { let taken = take result.taken (first.now ∷ others.now) in
        Writes 6 result.octets out.old out.new (flat_map (object_octets (clocks_of zone.now)) taken) }
    ensures width { All (λ x. HasWidth x.value) (take result.taken (first.now ∷ others.now)) }
{
    let start = write_object(first, tag, HEADER_OCTETS, out);
    let fitting = front(others, room_apart(kind) - 1);
    let behind = write_alike(first, fitting, kind, zone, start, out);
    Written {
        octets: behind.octets,
        taken: 1 + behind.taken,
    }
}

/// Writes element behind element. Answers where they end.
fn write_elements(observations: &[Observation], start: usize, out: &mut [u8; 249]) -> usize
    requires { start + length (flat_map element_octets observations.now) ≤ 249 }
    ensures written { Writes start result out.old out.new (flat_map element_octets observations.now) }
    ensures width { All (λ x. HasWidth x.value) observations.now }
{
    let mut end = start;
    for observation in observations {
        end = write_element(observation.value, observation.quality, end, out);
    }
    end
}

/// Writes the objects under SQ 1: the first one's address, its element, and those of all others. Answers where they end.
fn write_in_sequence(first: &Observation, others: &[Observation], out: &mut [u8; 249]) -> usize
    requires { 9 + length (flat_map element_octets (first.now ∷ others.now)) ≤ 249 }
    ensures written { Writes 6 result out.old out.new
        (address_octets first.now.address ++ flat_map element_octets (first.now ∷ others.now)) }
    ensures width { All (λ x. HasWidth x.value) (first.now ∷ others.now) }
{
    let start = write_address(first.address, HEADER_OCTETS, out);
    let behind = write_element(first.value, first.quality, start, out);
    write_elements(others, behind, out)
}

/// Writes the objects behind the header: under SQ 1 the first one and so many behind it, else under SQ 0 as many as are
/// like the first one, which is of this type, and fit.
fn write_objects(
    first: &Observation,
    others: &[Observation],
    tag: Option<[u8; 7]>,
    kind: MonitorType,
    sequence: Option<usize>,
    zone: &Zone,
    out: &mut [u8; 249],
) -> Written
    requires tag { tag ≡ tag_of (clocks_of zone.now) first.now.stamp }
    requires kind { kind ≡ type_at (clocks_of zone.now) first.now }
    requires sequence { is_some sequence ≡ is_in_sequence (clocks_of zone.now) (first.now ∷ others.now) }
    requires behind { IfSome sequence
        (λ behind. behind + 1 ≡ in_sequence_count (clocks_of zone.now) (first.now ∷ others.now)) }
    ensures taken { result.taken ≡ taken_of (clocks_of zone.now) (first.now ∷ others.now) }
    ensures written { let clocks = (clocks_of zone.now) in let xs = first.now ∷ others.now in
        Writes 6 result.octets out.old out.new
        (objects_octets clocks (is_in_sequence clocks xs) (take (taken_of clocks xs) xs)) }
    ensures width { let xs = first.now ∷ others.now in
        All (λ x. HasWidth x.value) (take (taken_of (clocks_of zone.now) xs) xs) }
{
    match sequence {
        Some(behind) => Written {
            octets: write_in_sequence(first, &others[..behind], out),
            taken: behind + 1,
        },
        None => write_apart(first, others, tag, kind, zone, out),
    }
}

/// Writes the header before so many objects of a type and under a common address.
fn write_header(
    kind: MonitorType,
    sequence: bool,
    number: usize,
    common: u16,
    cause: u8,
    out: &mut [u8; 249],
)
    requires { number ≤ 127 }
    ensures { Writes 0 6 out.old out.new (identification_by kind.element kind.timed
        ∷ qualifier_of sequence number ∷ cause ∷ 0 ∷ to_le_bytes w16 common) }
{
    let number = number as u8;
    let qualifier = if sequence { SEQUENCE + number } else { number };
    let [low, high] = common.to_le_bytes();
    out[..HEADER_OCTETS].copy_from_slice(&[kind.identification(), qualifier, cause, 0, low, high]);
}

/// Writes the ASDU of as many observations from the front as it carries: of one type and under one common
/// address, with time where their stamps have a time tag, and without elsewhere; under SQ 1 where they stand
/// at consecutive addresses and no fewer of them fit than under SQ 0, else under SQ 0; originator 0. `cause`
/// is the whole octet of the cause of transmission, `zone` the clocks of the station's clocks.
pub fn write_monitor(
    observations: &[Observation],
    cause: u8,
    zone: &Zone,
    out: &mut [u8; 249],
) -> Written
    requires { 0 < length observations.now }
    ensures taken { result.taken ≡ taken_of (clocks_of zone.now) observations.now }
    ensures some { 1 ≤ result.taken }
    ensures within { result.taken ≤ length observations.now }
    ensures most { result.taken ≤ 127 }
    ensures room { result.octets ≤ 249 }
    ensures rest { drop result.octets out.new ≡ drop result.octets out.old }
    // Which octets are written, for observations that aren't fit too.
    ensures spelled { take result.octets out.new
        ≡ packed_spelling (clocks_of zone.now) cause observations.now }
    // What is written means the observations that were taken, and their common address.
    ensures meant { let clocks = (clocks_of zone.now) in
        let written = take result.taken observations.now in
        All (IsFit clocks) written
        → IsSomeAnd (asdu_meaning (monitor_types clocks) (take result.octets out.new)) (λ asdu.
        (asdu.cause ≡ cause) × (asdu.originator ≡ 0) × All (λ x. x.common ≡ asdu.common_address) written
        × (asdu.observations ≡ written)) }
{
    let first = &observations[0];
    let others = &observations[1..];
    let tag = to_tag(first.stamp, zone);
    let kind = MonitorType {
        element: ElementKind::of(first.value),
        timed: tag.is_some(),
    };
    let sequence = sequence_behind(first, others, kind, zone);
    let written = write_objects(first, others, tag, kind, sequence, zone, out);
    write_header(
        kind,
        sequence.is_some(),
        written.taken,
        first.common,
        cause,
        out,
    );
    written
}
