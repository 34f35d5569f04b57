//! Tests of the readers: why they end where a client's octets are wrong, or a read fails.

use crate::reading::{Input, read_client_on, read_outstation_on};
use gw_map::DEFAULT_SETTINGS;
use iec_apci::ApciFault;
use std::marker::Brand;
use test_tools::{FROM_CLIENT, Opening, SOURCES, TWO_OUTSTATIONS, Why, WorkerEnd};

/// An interrogation, which is an I format.
const I_FORMAT: &[u8] = &[
    0x68, 0x0E, 0x00, 0x00, 0x00, 0x00, 0x64, 0x01, 0x06, 0x00, 0x01, 0x00, 0x00, 0x00, 0x00, 0x14,
];

/// What a client sends that has sent no STARTDT act, and why its reader ends. Behind the client's coming up each makes
/// one step: the I format, which closes the connection; or the loss, behind octets that are no APDU.
const ENDS: &[(&[u8], WorkerEnd)] = &[
    (I_FORMAT, WorkerEnd::Closed(Why::NotStarted)),
    (&[0x68, 0x03], WorkerEnd::Malformed(ApciFault::Length)),
];

#[test]
fn reading_ends(rt: HostRuntime) {
    for (octets, end) in ENDS {
        let opening = Opening::of(rt.alloc(), 1, DEFAULT_SETTINGS).expect(&rt, "an opening");
        let found = read_client_on::<Brand, _>(&rt, opening, Input::whole(octets));
        assert!(&rt; found == (*end, 2));
    }
}

/// Behind a client's coming up, the calls that are made of so many reads before the next one fails, and the loss: the first
/// of four reads has STARTDT act, and the last one the end of an interrogation.
const CLIENT_CALLS: &[(u8, u64)] = &[(0, 2), (1, 3), (2, 3), (3, 3), (4, 4)];

#[test]
fn failing_reads_of_a_client(rt: HostRuntime) {
    for (reads, calls) in CLIENT_CALLS {
        let opening = Opening::of(rt.alloc(), 1, DEFAULT_SETTINGS).expect(&rt, "an opening");
        let input = Input::failing(FROM_CLIENT, *reads);
        let found = read_client_on::<Brand, _>(&rt, opening, input);
        assert!(&rt; found == (WorkerEnd::ReadFault, *calls));
    }
}

/// A read of an outstation's octets that fails, behind so many: the last of seven has the last of two responses.
#[test]
fn failing_reads_of_an_outstation(rt: HostRuntime) {
    let [source, _] = SOURCES;
    for reads in 0..8 {
        let opening = Opening::of(rt.alloc(), 1, TWO_OUTSTATIONS).expect(&rt, "an opening");
        let input = Input::failing(source.octets, reads);
        let found = read_outstation_on::<Brand, _>(&rt, opening, source, input);
        assert!(&rt; found == WorkerEnd::ReadFault);
    }
}
