//! Reading ASDUs with process information.
ghost use Rattle.std.specs.Prelude.{◌≡◌, ◌+◌, ◌*◌, ◌%◌, ◌≤◌, length, Ok, IsOk, IfOk, IfErr};
ghost use Rattle.iec_asdu.specs.Asdu.{Asdu as Meaning, monitor_types, size_of, address_at};
ghost use Rattle.iec_asdu.specs.Grammar.{IsAsdu};
ghost use Rattle.gw_model.specs.Bits.{is_set};
ghost use Rattle.gw_model.specs.Outcome.{Gives};
ghost use Rattle.gw_time.specs.Rule.{clocks_of};
ghost use Rattle.iec_asdu.specs.Reading.{is_memory, object_read, read_apart, read_in_sequence, objects_length, objects_read};
ghost use Rattle.iec_asdu.specs.Types.{layout_at, type_length};
ghost use Rattle.iec_asdu.specs.Contents.{contents_of, Spells, monitor_contents, contents_read};

use crate::fault::AsduFault;
use crate::sizes::{ADDRESS_OCTETS, HEADER_OCTETS};
use crate::types::MonitorType;
use gw_model::Observation;
use gw_time::Zone;
use std::alloc::Global;

/// What an ASDU in monitor direction tells.
#[derive(Drop)]
pub struct Monitor {
    /// Common address.
    pub common: u16,
    /// The whole octet of the cause of transmission.
    pub cause: u8,
    pub observations: Vec<Observation>,
}

/// An information object address, low octet first.
fn address_of(octets: &[u8]) -> u32
    requires { 3 ≤ length octets.now }
    ensures value { result ≡ address_at octets.now }
    ensures small { result ≤ 16777215 }
{
    u32::from_le_bytes([octets[0], octets[1], octets[2], 0])
}

/// What element and time tag tell of an address under a common address.
fn read_object(
    common: u16,
    address: u32,
    kind: MonitorType,
    octets: &[u8],
    zone: &Zone,
) -> Result<Observation, AsduFault>
    requires { length octets.now ≡ size_of (layout_at (clocks_of zone.now) kind) }
    ensures { result ≡ object_read common address (layout_at (clocks_of zone.now) kind) octets.now }
{
    let (element, tag) = octets.split_at(kind.element.octets());
    let Some((value, quality)) = kind.element.read(element) else {
        return Err(AsduFault::Reserved);
    };
    let stamp = match kind.stamp(tag, zone) {
        Ok(stamp) => stamp,
        Err(fault) => return Err(fault),
    };
    Ok(Observation {
        common,
        address,
        value,
        quality,
        stamp,
    })
}

/// So many objects under a common address, each with its address.
fn read_objects_apart(
    alloc: Global,
    common: u16,
    kind: MonitorType,
    count: u8,
    objects: &[u8],
    zone: &Zone,
) -> Result<Vec<Observation>, AsduFault>
    requires { count * (3 + size_of (layout_at (clocks_of zone.now) kind)) ≤ length objects.now }
    ensures read { let layout = layout_at (clocks_of zone.now) kind in
        Gives is_memory (λ v. v.items) result (read_apart common layout count objects.now) }
    ensures memory { let layout = layout_at (clocks_of zone.now) kind in
        IfErr result (λ fault. fault ≡ AsduFault.Memory → IsOk (read_apart common layout count objects.now)) }
{
    let mut found = Vec::new(alloc);
    let mut is_refused = false;
    let mut rest = objects;
    for _ in 0..count {
        let (address, behind) = rest.split_at(ADDRESS_OCTETS);
        let (information, after) = behind.split_at(kind.octets());
        let observation = match read_object(common, address_of(address), kind, information, zone) {
            Ok(observation) => observation,
            Err(fault) => return Err(fault),
        };
        is_refused |= found.push(observation).is_err();
        rest = after;
    }
    if is_refused {
        return Err(AsduFault::Memory);
    }
    Ok(found)
}

/// The address so many places after the first.
fn counted_on(first: u32, place: u8) -> u32
    requires { first ≤ 16777215 }
    ensures { result ≡ first + place }
{
    first + u32::from(place)
}

/// So many objects under a common address, at consecutive addresses from the first on.
fn read_objects_in_sequence(
    alloc: Global,
    common: u16,
    kind: MonitorType,
    count: u8,
    first: u32,
    objects: &[u8],
    zone: &Zone,
) -> Result<Vec<Observation>, AsduFault>
    requires octets { count * size_of (layout_at (clocks_of zone.now) kind) ≤ length objects.now }
    requires first { first ≤ 16777215 }
    ensures read { let layout = layout_at (clocks_of zone.now) kind in
        Gives is_memory (λ v. v.items) result (read_in_sequence common layout count first objects.now) }
    ensures memory { let layout = layout_at (clocks_of zone.now) kind in
        IfErr result (λ fault. fault ≡ AsduFault.Memory
        → IsOk (read_in_sequence common layout count first objects.now)) }
{
    let mut found = Vec::new(alloc);
    let mut is_refused = false;
    let mut rest = objects;
    for place in 0..count {
        let (information, after) = rest.split_at(kind.octets());
        let observation = match read_object(
            common,
            counted_on(first, place),
            kind,
            information,
            zone,
        ) {
            Ok(observation) => observation,
            Err(fault) => return Err(fault),
        };
        is_refused |= found.push(observation).is_err();
        rest = after;
    }
    if is_refused {
        return Err(AsduFault::Memory);
    }
    Ok(found)
}

/// How many octets so many objects have, with their addresses or the one address.
fn objects_octets(kind: MonitorType, sequence: bool, count: u8) -> usize
    ensures { result ≡ objects_length (type_length kind) sequence count }
{
    if sequence {
        ADDRESS_OCTETS + usize::from(count) * kind.octets()
    } else {
        usize::from(count) * (ADDRESS_OCTETS + kind.octets())
    }
}

/// The objects that a variable structure qualifier tells, under a common address: bit 7 is SQ, bits 0 to 6 are their
/// number.
#[tactic(auto, unfolding(crate::specs::Reading::objects_read))]
fn read_objects(
    alloc: Global,
    common: u16,
    kind: MonitorType,
    qualifier: u8,
    objects: &[u8],
    zone: &Zone,
) -> Result<Vec<Observation>, AsduFault>
    ensures read { let layout = layout_at (clocks_of zone.now) kind in
        Gives is_memory (λ v. v.items) result
        (objects_read common layout (is_set 7 qualifier) (qualifier % 128) objects.now) }
    ensures memory { let layout = layout_at (clocks_of zone.now) kind in
        IfErr result (λ fault. fault ≡ AsduFault.Memory
        → IsOk (objects_read common layout (is_set 7 qualifier) (qualifier % 128) objects.now)) }
{
    let sequence = qualifier / 128 % 2 == 1;
    let count = qualifier % 128;
    if count == 0 {
        return Err(AsduFault::ZeroObjects);
    }
    let needed = objects_octets(kind, sequence, count);
    if objects.len() < needed {
        return Err(AsduFault::Short);
    }
    if objects.len() > needed {
        return Err(AsduFault::Long);
    }
    if sequence {
        let (address, elements) = objects.split_at(ADDRESS_OCTETS);
        read_objects_in_sequence(
            alloc,
            common,
            kind,
            count,
            address_of(address),
            elements,
            zone,
        )
    } else {
        read_objects_apart(alloc, common, kind, count, objects, zone)
    }
}

/// The whole ASDU.
#[tactic(auto, unfolding(crate::specs::Reading::asdu_read))]
fn read_whole(alloc: Global, octets: &[u8], zone: &Zone) -> Result<Monitor, AsduFault>
    ensures exact { let types = monitor_types (clocks_of zone.now) in
        Gives is_memory monitor_contents result (contents_read types octets.now) }
    ensures memory { let types = monitor_types (clocks_of zone.now) in
        IfErr result (λ fault. fault ≡ AsduFault.Memory → IsOk (contents_read types octets.now)) }
{
    if octets.len() < HEADER_OCTETS {
        return Err(AsduFault::Short);
    }
    let (header, objects) = octets.split_at(HEADER_OCTETS);
    let Some(kind) = MonitorType::of(header[0]) else {
        return Err(AsduFault::UnknownType);
    };
    let common = u16::from_le_bytes([header[4], header[5]]);
    let observations = match read_objects(alloc, common, kind, header[1], objects, zone) {
        Ok(observations) => observations,
        Err(fault) => return Err(fault),
    };
    Ok(Monitor {
        common,
        cause: header[2],
        observations,
    })
}

/// The ASDU that the octets spell, of a type with process information, under SQ 0 and SQ 1, with time and
/// without.
///
/// A fault is the first one: of the header, of the type, of the number of objects, of their length, and
/// then, object by object, of element and time tag. Want of memory is told only where there is no fault.
pub fn read_monitor(alloc: Global, octets: &[u8], zone: &Zone) -> Result<Monitor, AsduFault>
    // What is read is spelled so.
    ensures found { let types = monitor_types (clocks_of zone.now) in
        IfOk result (λ m. Spells types octets.now (monitor_contents m)) }
    // What is spelled so is read, unless memory runs out.
    ensures only { let types = monitor_types (clocks_of zone.now) in
        (asdu : Meaning) → IsAsdu types octets.now asdu
        → Gives is_memory monitor_contents result (Ok (contents_of asdu)) }
    // Which fault it is.
    ensures exact { let types = monitor_types (clocks_of zone.now) in
        Gives is_memory monitor_contents result (contents_read types octets.now) }
    // Memory hides no fault: it runs out only where the octets spell an ASDU.
    ensures memory { let types = monitor_types (clocks_of zone.now) in
        IfErr result (λ fault. fault ≡ AsduFault.Memory → IsOk (contents_read types octets.now)) }
{
    read_whole(alloc, octets, zone)
}
