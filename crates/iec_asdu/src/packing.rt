//! How many observations one ASDU carries, and under which SQ (IEC 60870-5-101, 7.2.2).
ghost use Rattle.std.specs.Prelude.{◌≡◌, ◌+◌, ◌-◌, ◌≤◌, ◌∷◌, false, take, is_some, IfSome};
ghost use Rattle.gw_time.specs.Rule.{clocks_of};
ghost use Rattle.iec_asdu.specs.Types.{type_length};
ghost use Rattle.iec_asdu.specs.Packing.{type_at, room_apart, room_in_sequence, is_alike};
ghost use Rattle.iec_asdu.specs.Packing.{consecutive_count, in_sequence_count, is_in_sequence};

use crate::sizes::{ADDRESS_OCTETS, ASDU_OCTETS, HEADER_OCTETS};
use crate::types::{ElementKind, MonitorType};
use gw_model::Observation;
use gw_time::{Zone, has_tag};

/// How many octets are left behind the header.
const OBJECTS_OCTETS: usize = ASDU_OCTETS - HEADER_OCTETS;

/// How many are left behind the header and one address.
const ELEMENTS_OCTETS: usize = OBJECTS_OCTETS - ADDRESS_OCTETS;

/// The most objects that a variable structure qualifier tells.
const MOST_OBJECTS: usize = 127;

/// How many objects of a type fit under SQ 0, each with its address.
pub fn room_apart(kind: MonitorType) -> usize
    ensures exact { result ≡ room_apart (type_length kind) }
    ensures some { 1 ≤ result }
{
    OBJECTS_OCTETS / (ADDRESS_OCTETS + kind.octets())
}

/// How many objects of a type fit under SQ 1, behind one address.
fn room_in_sequence(kind: MonitorType) -> usize
    ensures exact { result ≡ room_in_sequence (type_length kind) }
    ensures some { 1 ≤ result }
{
    MOST_OBJECTS.min(ELEMENTS_OCTETS / kind.octets())
}

/// At most so many from the front.
pub fn front(observations: &[Observation], most: usize) -> &[Observation]
    ensures { result.now ≡ take most observations.now }
{
    &observations[..most.min(observations.len())]
}

/// Whether an observation is like the first one, of this type: of its type, and under its common address.
fn is_alike(first: &Observation, observation: &Observation, kind: MonitorType, zone: &Zone) -> bool
    requires { kind ≡ type_at (clocks_of zone.now) first.now }
    ensures { result ≡ is_alike (clocks_of zone.now) first.now observation.now }
{
    ElementKind::of(observation.value) == kind.element
        && has_tag(observation.stamp, zone) == kind.timed
        && observation.common == first.common
}

/// How many go on behind the first one, of this type: like it, at consecutive addresses.
fn count_behind(
    first: &Observation,
    others: &[Observation],
    kind: MonitorType,
    zone: &Zone,
) -> usize
    requires { kind ≡ type_at (clocks_of zone.now) first.now }
    ensures { result ≡ consecutive_count (clocks_of zone.now) first.now (first.now.address + 1) others.now }
{
    let mut count = 0;
    let mut expected = u64::from(first.address) + 1;
    for observation in others {
        if u64::from(observation.address) != expected || !is_alike(first, observation, kind, zone) {
            return count;
        }
        count += 1;
        expected += 1;
    }
    count
}

/// How many an ASDU carries behind the first one under SQ 1; nothing where it stands under SQ 0, as one observation alone
/// does, and where that carries more: where one more follows that is like it, at another address, and fits.
pub fn sequence_behind(
    first: &Observation,
    others: &[Observation],
    kind: MonitorType,
    zone: &Zone,
) -> Option<usize>
    requires { kind ≡ type_at (clocks_of zone.now) first.now }
    ensures sequence { is_some result ≡ is_in_sequence (clocks_of zone.now) (first.now ∷ others.now) }
    ensures behind { IfSome result
        (λ behind. behind + 1 ≡ in_sequence_count (clocks_of zone.now) (first.now ∷ others.now)) }
{
    if kind.timed || others.is_empty() {
        return None;
    }
    let fitting = front(others, room_in_sequence(kind) - 1);
    let behind = count_behind(first, fitting, kind, zone);
    if behind == 0 {
        return None;
    }
    if behind + 1 < room_apart(kind)
        && behind < others.len()
        && is_alike(first, &others[behind], kind, zone)
    {
        return None;
    }
    Some(behind)
}
