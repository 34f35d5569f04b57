//! What workers gave and took, beside the calls that a recorder has kept of them.

use crate::checks::same;
use crate::held::{CLIENT_1_WRITER, OUTSTATION_0_READER, OUTSTATION_1_READER};
use dnp_app::{KeptResponse, Response};
use dnp_receive::responses_of;
use gw_threads::apdu_in;
use run_shared::ApduBuf;
use std::process::Abort;
use std::sync::{Mutex, Wait};
use test_tools::{Entry, Kept, MASTER, SOURCES, Source, has_termination};

/// The actors that read what the outstations send.
const READERS: &[usize; 2] = &[OUTSTATION_0_READER, OUTSTATION_1_READER];

/// The readers of outstations made a step of each response in their octets.
pub fn check_outstations<R: Abort + AllocGlobal>(rt: &R, entries: &[Entry]) {
    for (source, reader) in SOURCES.iter().zip(READERS) {
        let Source {
            outstation,
            address,
            octets,
            ..
        } = *source;
        let responses = responses_of(rt.alloc(), outstation, &[octets], MASTER, address).expect(
            rt, "memory",
        );
        same(rt, &responses.len(), &2);
        assert!(rt;
            are_stepped(entries, *reader, &responses),
            "outstation {outstation}"
        );
    }
}

/// Whether the fragments that an actor made a step of are these responses.
fn are_stepped(entries: &[Entry], actor: usize, responses: &[Response]) -> bool {
    let mut rest = responses;
    for entry in entries {
        if let Some(kept) = fragment_by(entry, actor) {
            match rest.split_first() {
                Some((first, others)) if is_same(first, kept) => rest = others,
                _ => return false,
            }
        }
    }
    rest.is_empty()
}

/// The fragment that a call is of, if an actor made it, and it is of one.
fn fragment_by(entry: &Entry, actor: usize) -> Option<&KeptResponse> {
    match entry.step.kept() {
        Kept::Fragment { response, .. } if entry.actor == actor => Some(response),
        _ => None,
    }
}

/// Whether a response was kept.
fn is_same(response: &Response, kept: &KeptResponse) -> bool {
    response.octets() == kept.octets() && response.outstation() == kept.outstation()
}

/// A client took the very APDUs that its writer's pumps were answered with, among them an interrogation's termination.
pub fn check_client<R: Wait + Abort + AllocGlobal>(
    rt: &R,
    entries: &[Entry],
    actor: usize,
    taken: &Mutex<Vec<u8>>,
) {
    let given = octets_given(rt, entries, actor);
    let is_same = taken.lock(rt).as_slice() == given.as_slice();
    assert!(rt;
        is_same && has_termination(given.as_slice()),
        "actor {actor}"
    );
}

/// The octets of the APDUs that an actor was answered, one after another.
fn octets_given<R: Abort + AllocGlobal>(rt: &R, entries: &[Entry], actor: usize) -> Vec<u8> {
    let mut octets = Vec::new(rt.alloc());
    for entry in entries {
        if let Some(apdu) = apdu_for(entry, actor) {
            octets
                .extend_from_slice(apdu.as_slice())
                .expect(rt, "memory");
        }
    }
    octets
}

/// The APDU that a call is answered with, if an actor made it, and it is one.
fn apdu_for(entry: &Entry, actor: usize) -> Option<ApduBuf> {
    if entry.actor == actor {
        apdu_in(entry.reply)
    } else {
        None
    }
}

/// Whether the interrogation of client 1 was answered while the first response of outstation 0 was held before its
/// step.
pub fn is_answered_first(entries: &[Entry]) -> bool {
    for entry in entries {
        if fragment_by(entry, OUTSTATION_0_READER).is_some() {
            return false;
        }
        if let Some(apdu) = apdu_for(entry, CLIENT_1_WRITER) {
            if has_termination(apdu.as_slice()) {
                return true;
            }
        }
    }
    false
}
