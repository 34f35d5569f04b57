//! TCP connections that are made up.

use crate::packet::{ACK, End, FIN, PSH, SYN, Segment};
use crate::tape::Tape;
use gw_model::Memory;

/// Who sends.
#[derive(Clone, Copy, PartialEq)]
pub enum Sender {
    Gateway,
    Peer,
}

impl Sender {
    /// The other one.
    pub fn other(self) -> Sender {
        match self {
            Sender::Gateway => Sender::Peer,
            Sender::Peer => Sender::Gateway,
        }
    }
}

/// One end of a connection, with the number of the next octet that it sends.
#[derive(Clone, Copy)]
struct Side {
    end: End,
    next: u32,
}

impl Side {
    fn new(end: End) -> Side {
        Side { end, next: 0 }
    }
}

/// A connection between the gateway and a peer.
#[derive(Clone, Copy)]
pub struct Connection {
    gateway: Side,
    peer: Side,
}

impl Connection {
    /// One that isn't made yet.
    pub fn new(gateway: End, peer: End) -> Connection {
        Connection {
            gateway: Side::new(gateway),
            peer: Side::new(peer),
        }
    }

    /// Makes it, as this one asks for it.
    pub fn open(&mut self, tape: &mut Tape, moment: u64, caller: Sender) -> Result<(), Memory> {
        self.put(tape, moment, caller, SYN, &[])?;
        self.put(tape, moment, caller.other(), SYN | ACK, &[])?;
        self.put(tape, moment, caller, ACK, &[])
    }

    /// Sends octets.
    pub fn send(
        &mut self,
        tape: &mut Tape,
        moment: u64,
        sender: Sender,
        octets: &[u8],
    ) -> Result<(), Memory> {
        self.put(tape, moment, sender, PSH | ACK, octets)
    }

    /// Ends it, as this one begins to.
    pub fn close(&mut self, tape: &mut Tape, moment: u64, first: Sender) -> Result<(), Memory> {
        self.put(tape, moment, first, FIN | ACK, &[])?;
        self.put(tape, moment, first.other(), FIN | ACK, &[])?;
        self.put(tape, moment, first, ACK, &[])
    }

    /// Adds a segment with these flags, which acknowledges all that came where it acknowledges.
    fn put(
        &mut self,
        tape: &mut Tape,
        moment: u64,
        sender: Sender,
        flags: u8,
        payload: &[u8],
    ) -> Result<(), Memory> {
        let (from, to) = match sender {
            Sender::Gateway => (self.gateway, self.peer),
            Sender::Peer => (self.peer, self.gateway),
        };
        let segment = Segment {
            from: from.end,
            to: to.end,
            sequence: from.next,
            acknowledged: if flags & ACK == 0 { 0 } else { to.next },
            flags,
            payload,
        };
        let packet = segment.packet(tape.alloc())?;
        self.go_on(sender, taken_by(flags, payload));
        tape.put(moment, packet)
    }

    /// The next octet that one sends has a number so much higher.
    fn go_on(&mut self, sender: Sender, count: u32) {
        match sender {
            Sender::Gateway => self.gateway.next = self.gateway.next.wrapping_add(count),
            Sender::Peer => self.peer.next = self.peer.next.wrapping_add(count),
        }
    }
}

/// How many numbers a segment takes: one for each octet, and one for SYN or FIN.
fn taken_by(flags: u8, payload: &[u8]) -> u32 {
    let marks = u32::from(flags & (SYN | FIN) != 0);
    let octets = u32::try_from(payload.len()).unwrap_or(u32::MAX);
    octets.saturating_add(marks)
}
