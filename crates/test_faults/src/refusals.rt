//! Calls that take memory, on octets: where it is refused the call says so, what it was made on is as it was, and the
//! same call again gives the answer.

use crate::checks::same;
use crate::watched::{begin, end};
use dnp_app::{AppFault, Response, read_response};
use dnp_objects::{HeaderFault, headers};
use dnp_points::reports;
use dnp_transport::{Assembler, DropCause, Taken};
use gw_model::{Memory, Observation, Raw, Report, Stamp, Value};
use gw_time::Zone;
use iec_apci::{ApciFault, Apdu, ApduFeed, Signal};
use iec_asdu::{AsduFault, Monitor, read_monitor};
use std::process::Abort;

/// A response with an event of binary input 5 at 22:13:20 on 14 November 2023, which asks for confirmation.
const TIMED: &[u8] = &[
    0xE3, 0x81, 0x02, 0x00, 0x02, 0x02, 0x17, 0x01, 0x05, 0x81, 0x00, 0x68, 0xE5, 0xCF, 0x8B, 0x01,
];

#[test]
fn a_timed_event(rt: HostRuntime) {
    let octets = Vec::from_slice(rt.alloc(), TIMED).expect(&rt, "memory");
    let spare = Vec::from_slice(rt.alloc(), TIMED).expect(&rt, "memory");
    begin(&rt);
    let (response, refused) = match response_of(&rt, octets) {
        Some(response) => (response, 0),
        None => (response_of(&rt, spare).expect(&rt, "memory"), 1),
    };
    end(&rt, refused);
    assert!(&rt; response.control().con);
    let [report] = response.reports() else {
        rt.panic("not one report");
    };
    same(&rt, &report.key.index, &5);
    assert!(&rt; matches!(report.raw, Raw::Bit(true)));
    assert!(&rt; report.stamp == Stamp::At(1_700_000_000_000));
}

/// The response that a fragment is; none where memory is refused.
fn response_of<R: Abort + AllocGlobal>(rt: &R, octets: Vec<u8>) -> Option<Response> {
    if octets.len() > 2048 {
        rt.panic("longer than a fragment");
    }
    match read_response(rt.alloc(), 0, octets) {
        Ok(response) => Some(response),
        Err(AppFault::Memory | AppFault::Object(_)) => None,
        Err(_) => rt.panic("not refused for want of memory"),
    }
}

/// Ten inputs from index 3 on, packed.
const PACKED: &[u8] = &[0x01, 0x01, 0x00, 0x03, 0x0C, 0x55, 0xFE];

const STATES: &[bool] = &[
    true, false, true, false, true, false, true, false, false, true,
];

#[test]
fn packed_inputs(rt: HostRuntime) {
    begin(&rt);
    let (told, refused) = match reports_of(&rt, PACKED) {
        Ok(told) => (told, 0),
        Err(Memory) => (reports_of(&rt, PACKED).expect(&rt, "memory"), 1),
    };
    end(&rt, refused);
    same(&rt, &told.len(), &STATES.len());
    for ((report, state), index) in told.iter().zip(STATES).zip(3..13u16) {
        same(&rt, &report.key.index, &index);
        same(&rt, &(report.flags, report.event), &(0x01, false));
        assert!(&rt; matches!(report.raw, Raw::Bit(bit) if bit == *state));
    }
}

/// What an object part reports of outstation 0.
fn reports_of<R: Abort + AllocGlobal>(rt: &R, part: &[u8]) -> Result<Vec<Report>, Memory> {
    match headers(rt.alloc(), part) {
        Ok(found) => reports(rt.alloc(), 0, &found, part),
        Err(fault) => {
            assert!(rt; fault.why == HeaderFault::Memory);
            Err(Memory)
        }
    }
}

/// What becomes of a segment.
#[derive(Clone, Copy)]
enum Fate {
    More,
    Gap,
    Lone,
    Empty,
    Fragment(&'static [u8]),
}

/// Two series of segments, the header octet first, and what becomes of each.
const SERIES: &[&[(&[u8], Fate)]] = &[
    &[
        (&[0x7E, 0xAA], Fate::More),
        (&[0x3F, 0xBB], Fate::More),
        (&[0x80, 0xCC], Fate::Fragment(&[0xAA, 0xBB, 0xCC])),
    ],
    &[
        (&[0x41, 0xAA], Fate::More),
        (&[0x83, 0xBB], Fate::Gap),
        (&[0x84, 0xCC], Fate::Lone),
        (&[0xC6], Fate::Empty),
        (&[0xC5, 0xDD], Fate::Fragment(&[0xDD])),
    ],
];

#[test]
fn segments(rt: HostRuntime) {
    let mut refused: usize = 0;
    begin(&rt);
    for series in SERIES {
        let mut assembler = Assembler::new(rt.alloc());
        for (segment, fate) in *series {
            let taken = match assembler.segment(segment) {
                Ok(taken) => taken,
                Err(Memory) => {
                    refused = refused.saturating_add(1);
                    assembler.segment(segment).expect(&rt, "memory")
                }
            };
            assert!(&rt; has_fate(&taken, *fate));
        }
    }
    end(&rt, refused);
}

fn has_fate(taken: &Taken, fate: Fate) -> bool {
    match (taken, fate) {
        (Taken::More, Fate::More)
        | (Taken::Dropped(DropCause::Gap), Fate::Gap)
        | (Taken::Dropped(DropCause::Lone), Fate::Lone)
        | (Taken::Dropped(DropCause::Empty), Fate::Empty) => true,
        (Taken::Fragment(octets), Fate::Fragment(wanted)) => octets.as_slice() == wanted,
        _ => false,
    }
}

/// Three inputs at consecutive addresses from 4101 on (SQ 1): on, off, and off with IV and NT.
const MONITOR: &[u8] = &[
    0x01, 0x83, 0x14, 0x00, 0x01, 0x00, 0x05, 0x10, 0x00, 0x01, 0x00, 0xC0,
];

#[test]
fn packed_asdu(rt: HostRuntime) {
    begin(&rt);
    let (monitor, refused) = match monitor_of(&rt) {
        Ok(monitor) => (monitor, 0),
        Err(Memory) => (monitor_of(&rt).expect(&rt, "memory"), 1),
    };
    end(&rt, refused);
    same(&rt, &(monitor.common, monitor.cause), &(1, 0x14));
    let [on, off, invalid] = monitor.observations.as_slice() else {
        rt.panic("not three observations");
    };
    check_input(&rt, on, 4101, true, false);
    check_input(&rt, off, 4102, false, false);
    check_input(&rt, invalid, 4103, false, true);
}

#[tactic(auto, unfolding(gw_model::specs::Rule::IsRuleOrNone))]
fn monitor_of<R: Abort + AllocGlobal>(rt: &R) -> Result<Monitor, Memory> {
    match read_monitor(rt.alloc(), MONITOR, &Zone::UTC) {
        Ok(monitor) => Ok(monitor),
        Err(fault) => {
            assert!(rt; fault == AsduFault::Memory);
            Err(Memory)
        }
    }
}

/// An observation is that of an input at this address, in this state, and is invalid and not topical, or neither.
fn check_input<R: Abort>(rt: &R, found: &Observation, address: u32, state: bool, invalid: bool) {
    same(rt, &found.address, &address);
    same(
        rt,
        &(found.quality.iv, found.quality.nt),
        &(invalid, invalid),
    );
    assert!(rt; found.value == Value::Single(state));
}

/// TESTFR act, and a start with a length below 4.
const FAULTY: &[u8] = &[0x68, 0x04, 0x43, 0x00, 0x00, 0x00, 0x68, 0x03];

#[test]
fn a_fault_of_a_stream(rt: HostRuntime) {
    let mut feed = ApduFeed::new(rt.alloc());
    let mut refused = 0;
    begin(&rt);
    if feed.feed(FAULTY).is_err() {
        refused = 1;
        assert!(&rt; feed.next().is_none());
        feed.feed(FAULTY).expect(&rt, "memory");
    }
    end(&rt, refused);
    assert!(&rt; matches!(feed.next(), Some(Ok(Apdu::U(Signal::TestAct)))));
    for _ in 0..3u8 {
        assert!(&rt; matches!(feed.next(), Some(Err(ApciFault::Length))));
    }
}
