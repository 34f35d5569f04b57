//! iec_asdu: each bit of the information elements alone, as IEC 60870-5-101, 7.2.6, numbers them, the most objects, and
//! what one ASDU carries of a list.
#![tactic(auto, unfolding(gw_model::specs::Rule::IsRuleOrNone))]

use crate::checks::{same, same_list};
use gw_model::{Observation, Quality, Stamp, Value};
use gw_time::Zone;
use iec_asdu::{AsduFault, read_monitor, write_monitor};
use std::alloc::Global;
use std::process::Abort;
use std::test::Fail;

const GOOD: Quality = Quality::GOOD;

const IV: Quality = Quality { iv: true, ..GOOD };

const NT: Quality = Quality { nt: true, ..GOOD };

const SB: Quality = Quality { sb: true, ..GOOD };

const BL: Quality = Quality { bl: true, ..GOOD };

const OV: Quality = Quality { ov: true, ..GOOD };

const CY: Quality = Quality { cy: true, ..GOOD };

const CA: Quality = Quality { ca: true, ..GOOD };

/// The bits of SIQ and DIQ (7.2.6.1 and 7.2.6.2).
const STATE_BITS: &[(u8, Quality)] = &[
    (0x00, GOOD),
    (0x10, BL),
    (0x20, SB),
    (0x40, NT),
    (0x80, IV),
];

/// The bits of QDS (7.2.6.3).
const DESCRIPTOR_BITS: &[(u8, Quality)] = &[
    (0x00, GOOD),
    (0x01, OV),
    (0x10, BL),
    (0x20, SB),
    (0x40, NT),
    (0x80, IV),
];

/// The bits behind the sequence number of BCR (7.2.6.9).
const COUNTER_BITS: &[(u8, Quality)] = &[(0x00, GOOD), (0x20, CY), (0x40, CA), (0x80, IV)];

/// The bits of a counter's sequence number, which are passed over.
const SEQUENCE_BITS: &[(u8, Quality)] = &[
    (0x01, GOOD),
    (0x02, GOOD),
    (0x04, GOOD),
    (0x08, GOOD),
    (0x10, GOOD),
];

/// The qualities that states, values with QDS, and counters have no bit for.
const NO_STATE_BITS: &[(u8, Quality)] = &[(0x00, OV), (0x00, CY), (0x00, CA)];

const NO_DESCRIPTOR_BITS: &[(u8, Quality)] = &[(0x00, CY), (0x00, CA)];

const NO_COUNTER_BITS: &[(u8, Quality)] = &[(0x00, NT), (0x00, SB), (0x00, BL), (0x00, OV)];

/// A type identification, a value, its octets before the last, its bits in the last, and the bits of the quality there.
type Row = (u8, Value, &'static [u8], u8, &'static [(u8, Quality)]);

/// These are written and read as one another.
const ELEMENTS: &[Row] = &[
    (1, Value::Single(false), b"", 0x00, STATE_BITS),
    (1, Value::Single(true), b"", 0x01, STATE_BITS),
    (3, Value::Double(0), b"", 0x00, STATE_BITS),
    (3, Value::Double(1), b"", 0x01, STATE_BITS),
    (3, Value::Double(2), b"", 0x02, STATE_BITS),
    (3, Value::Double(3), b"", 0x03, STATE_BITS),
    (
        7,
        Value::Word(0x8765_4321),
        b"\x21\x43\x65\x87",
        0x00,
        DESCRIPTOR_BITS,
    ),
    (11, Value::Scaled(-2), b"\xFE\xFF", 0x00, DESCRIPTOR_BITS),
    (
        15,
        Value::Total(0x8765_4321),
        b"\x21\x43\x65\x87",
        0x00,
        COUNTER_BITS,
    ),
];

/// These are written so, and lose their quality.
const WITHOUT_BIT: &[Row] = &[
    (1, Value::Single(false), b"", 0x00, NO_STATE_BITS),
    (3, Value::Double(0), b"", 0x00, NO_STATE_BITS),
    (
        7,
        Value::Word(0),
        b"\x00\x00\x00\x00",
        0x00,
        NO_DESCRIPTOR_BITS,
    ),
    (11, Value::Scaled(0), b"\x00\x00", 0x00, NO_DESCRIPTOR_BITS),
    (
        15,
        Value::Total(0),
        b"\x00\x00\x00\x00",
        0x00,
        NO_COUNTER_BITS,
    ),
];

/// These are read so.
const PASSED_OVER: &[Row] = &[(
    15,
    Value::Total(7),
    b"\x07\x00\x00\x00",
    0x00,
    SEQUENCE_BITS,
)];

/// Types, the octets of an element before the last, and the reserved bits of the last.
const RESERVED: &[(u8, &[u8], &[u8])] = &[
    (1, b"", &[0x02, 0x04, 0x08]),
    (3, b"", &[0x04, 0x08]),
    (7, b"\x00\x00\x00\x00", &[0x02, 0x04, 0x08]),
    (11, b"\x00\x00", &[0x02, 0x04, 0x08]),
];

/// An ASDU of so many of these objects, spontaneous, from address 200,704 on: under SQ 0 with its own address each, at
/// so many addresses from one another.
fn asdu_at(
    alloc: Global,
    identification: u8,
    qualifier: u8,
    front: &[u8],
    last: u8,
    step: u8,
) -> Result<Vec<u8>, Fail> {
    let mut octets = Vec::from_slice(alloc, &[identification, qualifier, 3, 0, 1, 0])?;
    for place in 0..qualifier % 128 {
        if place == 0 || qualifier < 128 {
            octets.extend_from_slice(&[place.wrapping_mul(step), 0x10, 0x03])?;
        }
        octets.extend_from_slice(front)?;
        octets.push(last)?;
    }
    Ok(octets)
}

/// The same at consecutive addresses.
fn asdu_of(
    alloc: Global,
    identification: u8,
    qualifier: u8,
    front: &[u8],
    last: u8,
) -> Result<Vec<u8>, Fail> {
    asdu_at(alloc, identification, qualifier, front, last, 1)
}

/// The ASDU is read as so many such observations, from address 200,704 on.
fn check_read(
    rt: &(impl Abort + AllocGlobal),
    asdu: &[u8],
    first: Observation,
    count: u8,
) -> Result<(), Fail> {
    let observations = read(rt.alloc(), asdu)?;
    same(rt, &observations.len(), &usize::from(count));
    for (found, place) in observations.iter().zip(0..count) {
        let address = 200_704 + u32::from(place);
        assert!(rt;
            is_same(found, &Observation { address, ..first }),
            "at {place}"
        );
    }
    Ok(())
}

/// Two observations are the same in all.
fn is_same(found: &Observation, wanted: &Observation) -> bool {
    found.shows_same(wanted)
        && found.common == wanted.common
        && found.address == wanted.address
        && found.stamp == wanted.stamp
}

/// The observation is written as this ASDU.
fn check_written(rt: &impl Abort, observation: Observation, asdu: &[u8]) {
    let mut out = [0xAA; 249];
    let written = write_monitor(&[observation], 3, &Zone::UTC, &mut out);
    same(rt, &written.taken, &1);
    same_list(rt, &out[..written.octets], asdu);
}

fn read(alloc: Global, asdu: &[u8]) -> Result<Vec<Observation>, Fail> {
    Ok(read_monitor(alloc, asdu, &Zone::UTC)?.observations)
}

/// Each row's observations and ASDUs are written as these, and read as those.
fn check_rows(
    rt: &(impl Abort + AllocGlobal),
    rows: &[Row],
    is_written: bool,
    is_read: bool,
) -> Result<(), Fail> {
    for (identification, value, front, last, bits) in rows {
        for (bit, quality) in *bits {
            let asdu = asdu_of(rt.alloc(), *identification, 1, front, *last | *bit)?;
            let observation = Observation {
                common: 1,
                address: 200_704,
                value: *value,
                quality: *quality,
                stamp: Stamp::Untimed,
            };
            if is_written {
                check_written(rt, observation, &asdu);
            }
            if is_read {
                check_read(rt, &asdu, observation, 1)?;
            }
        }
    }
    Ok(())
}

#[test]
fn each_bit(rt: HostRuntime) -> Result<(), Fail> {
    check_rows(&rt, ELEMENTS, true, true)?;
    check_rows(&rt, WITHOUT_BIT, true, false)?;
    check_rows(&rt, PASSED_OVER, false, true)
}

#[test]
fn reserved_bits(rt: HostRuntime) -> Result<(), Fail> {
    for (identification, front, bits) in RESERVED {
        for bit in *bits {
            let asdu = asdu_of(rt.alloc(), *identification, 1, front, *bit)?;
            let fault = read_monitor(rt.alloc(), &asdu, &Zone::UTC).err();
            same(&rt, &fault, &Some(AsduFault::Reserved));
        }
    }
    Ok(())
}

/// On 14 November 2023 at 22:13:20 UTC.
const AT: Stamp = Stamp::At(1_700_000_000_000);

const UNTIMED: Stamp = Stamp::Untimed;

const WORD: Value = Value::Word(0x8765_4321);

const TOTAL: Value = Value::Total(0x8765_4321);

/// A type identification, the octets of an object but for the last, the last, what it tells, value and stamp, and the
/// variable structure qualifier of as many as fit: of 128 at consecutive addresses, and at every second address.
type ObjectRow = (u8, &'static [u8], u8, Value, Stamp, u8, u8);

const OBJECTS: &[ObjectRow] = &[
    (1, b"", 0x01, Value::Single(true), UNTIMED, 0xFF, 60),
    (3, b"", 0x02, Value::Double(2), UNTIMED, 0xFF, 60),
    (7, b"\x21\x43\x65\x87", 0x00, WORD, UNTIMED, 0xB0, 30),
    (11, b"\xFE\xFF", 0x00, Value::Scaled(-2), UNTIMED, 0xD0, 40),
    (15, b"\x21\x43\x65\x87", 0x00, TOTAL, UNTIMED, 0xB0, 30),
];

/// The same with their time tags: this is the last octet.
const TIMED_OBJECTS: &[ObjectRow] = &[
    (
        30,
        b"\x01\x20\x4E\x0D\x16\x0E\x0B",
        0x17,
        Value::Single(true),
        AT,
        22,
        22,
    ),
    (
        31,
        b"\x02\x20\x4E\x0D\x16\x0E\x0B",
        0x17,
        Value::Double(2),
        AT,
        22,
        22,
    ),
    (
        33,
        b"\x21\x43\x65\x87\x00\x20\x4E\x0D\x16\x0E\x0B",
        0x17,
        WORD,
        AT,
        16,
        16,
    ),
    (
        35,
        b"\xFE\xFF\x00\x20\x4E\x0D\x16\x0E\x0B",
        0x17,
        Value::Scaled(-2),
        AT,
        18,
        18,
    ),
    (
        37,
        b"\x21\x43\x65\x87\x00\x20\x4E\x0D\x16\x0E\x0B",
        0x17,
        TOTAL,
        AT,
        16,
        16,
    ),
];

/// 127 objects of each type, with their own addresses and at consecutive ones.
#[test]
fn most_objects(rt: HostRuntime) -> Result<(), Fail> {
    for rows in [OBJECTS, TIMED_OBJECTS] {
        for (identification, front, last, value, stamp, _, _) in rows {
            let first = Observation {
                common: 1,
                address: 200_704,
                value: *value,
                quality: GOOD,
                stamp: *stamp,
            };
            for qualifier in [0x7F, 0xFF] {
                let asdu = asdu_of(rt.alloc(), *identification, qualifier, front, *last)?;
                check_read(&rt, &asdu, first, 127)?;
            }
        }
    }
    Ok(())
}

/// What one ASDU carries of a list has this variable structure qualifier, and is read back. Answers its octets.
fn check_carried(
    rt: &(impl Abort + AllocGlobal),
    list: &[Observation],
    qualifier: u8,
) -> Result<Vec<u8>, Fail> {
    let mut out = [0xAA; 249];
    if list.is_empty() {
        return Ok(Vec::new(rt.alloc()));
    }
    let written = write_monitor(list, 3, &Zone::UTC, &mut out);
    let asdu = &out[..written.octets];
    let found = read(rt.alloc(), asdu)?;
    same(rt, &out[1], &qualifier);
    same(rt, &written.taken, &usize::from(qualifier % 128));
    same(rt, &found.len(), &written.taken);
    for (found, given) in found.iter().zip(list) {
        assert!(rt; is_same(found, given));
    }
    Ok(Vec::from_slice(rt.alloc(), asdu)?)
}

/// 128 such observations from address 200,704 on, the first of them at consecutive addresses, and the others at every
/// second address.
fn list_of(first: Observation, consecutive: u8) -> [Observation; 128] {
    let mut list = [first; 128];
    for place in 0..128u8 {
        let apart = place.saturating_sub(consecutive.saturating_sub(1));
        list[usize::from(place)].address = 200_704 + u32::from(place) + u32::from(apart);
    }
    list
}

/// As many objects of each type as fit, at consecutive addresses and at every second address.
#[test]
fn fullest(rt: HostRuntime) -> Result<(), Fail> {
    for rows in [OBJECTS, TIMED_OBJECTS] {
        for (identification, front, last, value, stamp, in_sequence, apart) in rows {
            let first = Observation {
                common: 1,
                address: 200_704,
                value: *value,
                quality: GOOD,
                stamp: *stamp,
            };
            for (qualifier, consecutive, step) in [(*in_sequence, 128, 1), (*apart, 1, 2)] {
                let asdu = asdu_at(rt.alloc(), *identification, qualifier, front, *last, step)?;
                let written = check_carried(&rt, &list_of(first, consecutive), qualifier)?;
                same(&rt, &written, &asdu);
            }
        }
    }
    Ok(())
}

/// How many of a list of single-points stand at consecutive addresses, how many there are, and the variable structure
/// qualifier.
const PREFIXES: &[(u8, usize, u8)] = &[
    (1, 1, 0x01),
    (2, 2, 0x82),
    (100, 100, 0xE4),
    (127, 127, 0xFF),
    (10, 60, 0x3C),
    (59, 100, 0x3C),
    (60, 100, 0xBC),
];

#[test]
fn prefixes(rt: HostRuntime) -> Result<(), Fail> {
    let first = Observation {
        common: 1,
        address: 200_704,
        value: Value::Single(true),
        quality: GOOD,
        stamp: UNTIMED,
    };
    for (consecutive, count, qualifier) in PREFIXES {
        let list = list_of(first, *consecutive);
        let part = list.get(..*count).unwrap_or(&[]);
        let written = check_carried(&rt, part, *qualifier)?;
        same(&rt, &written.get(1).copied(), &Some(*qualifier));
    }
    Ok(())
}
