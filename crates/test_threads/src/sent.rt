//! What outstations took, beside the calls that a recorder has kept.
ghost use Rattle.std.specs.Prelude.{◌≡◌, false, None};

use crate::checks::{same, same_list};
use crate::held::{
    OUTSTATION_0_READER, OUTSTATION_0_WRITER, OUTSTATION_1_READER, OUTSTATION_1_WRITER,
};
use dnp_link::laws::events_of;
use dnp_link::{Frame, LinkEvent};
use dnp_receive::replies_of;
use std::process::Abort;
use std::sync::{Mutex, Wait};
use test_tools::{Entry, MASTER, Outgoing, Reply, SOURCES, Source, Unwritten, Verdict};

/// CONTROL of a frame with user data of a master.
const USER_DATA: u8 = 0xC4;

/// The function code of a confirmation.
const CONFIRM: u8 = 0;

/// An outstation, and the octets that it took.
#[derive(Drop)]
pub struct Taker<'a, R> {
    rt: &'a R,
    octets: &'a Mutex<Vec<u8>>,
    has_failed: bool,
}

impl<'a, R> Taker<'a, R> {
    /// One that has taken nothing.
    pub fn new(rt: &'a R, octets: &'a Mutex<Vec<u8>>) -> Taker<'a, R>
        ensures { result.has_failed ≡ false }
    {
        Taker {
            rt,
            octets,
            has_failed: false,
        }
    }
}

impl<'a, R: Wait> Outgoing for Taker<'a, R> {
    ghost contents = { λ _. None };

    ghost has_failed = { λ taker. taker.has_failed };

    fn hand(&mut self, octets: &[u8]) -> Result<(), Unwritten> {
        match self.octets.lock(self.rt).extend_from_slice(octets) {
            Ok(()) => Ok(()),
            Err(_) => {
                self.has_failed = true;
                Err(Unwritten)
            }
        }
    }
}

/// The octets of the fragments that go to an outstation, one behind the other, and CONTROL of each reply of the link.
#[derive(Drop)]
struct Sent {
    confirmations: Vec<u8>,
    requests: Vec<u8>,
    replies: Vec<u8>,
}

impl Sent {
    fn nothing<R: AllocGlobal>(rt: &R) -> Sent {
        Sent {
            confirmations: Vec::new(rt.alloc()),
            requests: Vec::new(rt.alloc()),
            replies: Vec::new(rt.alloc()),
        }
    }

    /// What is owed for a call that a recorder has kept: for a response its confirmation, for a poll the request.
    fn add_owed<R: Abort>(&mut self, rt: &R, entry: &Entry) {
        match &entry.reply {
            Ok(Reply::Verdict(verdict)) => {
                if let Some(octets) = confirmation_in(verdict) {
                    add(rt, &mut self.confirmations, &octets);
                }
            }
            Ok(Reply::Request(request)) => add(rt, &mut self.requests, request.as_slice()),
            _ => {}
        }
    }

    /// What a frame brings, which is the first behind so many with a segment; how many these are then.
    fn add_frame<R: Abort>(&mut self, rt: &R, frame: &Frame, segments: u8) -> u8 {
        let Some((transport, fragment)) = frame.user().split_first() else {
            add(rt, &mut self.replies, &[frame.control]);
            return segments;
        };
        same(rt, &frame.control, &USER_DATA);
        // FIN and FIR, and the sequence number.
        same(rt, transport, &(0xC0 | segments));
        if fragment.get(1) == Some(&CONFIRM) {
            add(rt, &mut self.confirmations, fragment);
        } else {
            add(rt, &mut self.requests, fragment);
        }
        segments.wrapping_add(1) % 64
    }
}

/// The confirmation that a fragment is to have, if it is to have one.
fn confirmation_in(verdict: &Verdict) -> Option<[u8; 2]> {
    match verdict {
        Verdict::Accepted { confirm, .. } | Verdict::Repeated { confirm } => *confirm,
        Verdict::Ignored(_) => None,
    }
}

fn add<R: Abort>(rt: &R, all: &mut Vec<u8>, octets: &[u8]) {
    all.extend_from_slice(octets).expect(rt, "memory");
}

/// The actors that read what the outstations send, and those that ask them.
const ACTORS: &[(usize, usize); 2] = &[
    (OUTSTATION_0_READER, OUTSTATION_0_WRITER),
    (OUTSTATION_1_READER, OUTSTATION_1_WRITER),
];

/// The outstations took what is owed to them, in frames, once each: the confirmations and requests that their readers
/// and writers were answered, and the replies of the link to their own octets. The first one was asked.
pub fn check_sent<R: Wait + Abort + AllocGlobal>(
    rt: &R,
    entries: &[Entry],
    taken: &[Mutex<Vec<u8>>; 2],
) {
    for ((source, actors), octets) in SOURCES.iter().zip(ACTORS).zip(taken) {
        let sent = sent_in(rt, octets.lock(rt).as_slice(), source);
        let owed = owed_to(rt, entries, *actors, source);
        same_list(
            rt,
            sent.confirmations.as_slice(),
            owed.confirmations.as_slice(),
        );
        same_list(rt, sent.requests.as_slice(), owed.requests.as_slice());
        same_list(rt, sent.replies.as_slice(), owed.replies.as_slice());
        assert!(rt; source.outstation > 0 || !sent.requests.is_empty());
    }
}

/// What frames bring an outstation, of which these octets consist.
fn sent_in<R: Abort + AllocGlobal>(rt: &R, octets: &[u8], source: &Source) -> Sent {
    let mut sent = Sent::nothing(rt);
    let mut segments = 0;
    for event in &events_of(rt.alloc(), &[octets]).expect(rt, "memory") {
        match event {
            LinkEvent::Frame(frame) => {
                same(
                    rt,
                    &(frame.destination, frame.source),
                    &(source.address, MASTER),
                );
                segments = sent.add_frame(rt, frame, segments);
            }
            LinkEvent::Skipped(_) => rt.panic("octets of no frame"),
        }
    }
    sent
}

/// What is owed to an outstation by the calls of its reader and its writer, and by the link.
fn owed_to<R: Abort + AllocGlobal>(
    rt: &R,
    entries: &[Entry],
    actors: (usize, usize),
    source: &Source,
) -> Sent {
    let (reader, writer) = actors;
    let mut owed = Sent::nothing(rt);
    for entry in entries {
        if entry.actor == reader || entry.actor == writer {
            owed.add_owed(rt, entry);
        }
    }
    let replies = replies_of(rt.alloc(), &[source.octets], MASTER, source.address);
    for reply in &replies.expect(rt, "memory") {
        add(rt, &mut owed.replies, &reply[3..4]);
    }
    owed
}
