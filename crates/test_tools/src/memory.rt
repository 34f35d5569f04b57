//! Ends of connections in memory.
ghost use Rattle.std.specs.Prelude.{◌≡◌, false, None};
ghost use Rattle.run_shared.specs.Roles.{IsOne};

use crate::cores::Shared;
use crate::peers::{MASTER, Source, Still};
use dnp_receive::Receiver;
use gw_threads::{
    Arrival, Calls, Course, Gate, Incoming, Line, LineCourse, Opened, Outgoing, Pass, Patience,
    Sending, Unwritten, WorkerEnd, client_reader, client_writer, outstation_reader,
};
use std::alloc::Global;
use std::sync::Wait;
use std::sync::atomic::{AtomicBool, Ordering};

/// How many octets come at once at most, so that frames and APDUs come in pieces.
const PIECE: usize = 7;

/// Octets that a peer sends, and then no more.
#[derive(Drop)]
pub struct Sent<'a> {
    pub rest: &'a [u8],
}

impl<'a> Incoming for Sent<'a> {
    ghost given = { λ _. None };

    ghost has_failed = { λ _. false };

    fn receive(&mut self, buffer: &mut [u8]) -> Arrival {
        let count = self.rest.len().min(PIECE).min(buffer.len());
        if count == 0 {
            return Arrival::End;
        }
        let (piece, rest) = self.rest.split_at(count);
        buffer[..count].copy_from_slice(piece);
        self.rest = rest;
        Arrival::Octets(count)
    }
}

/// A client that takes so many octets, and fails at the next one.
#[derive(Drop)]
pub struct Client<'a> {
    pub octets: Vec<u8>,
    room: usize,
    /// Whether an interrogation's termination was among them.
    has_ended: &'a AtomicBool,
    has_failed: bool,
}

impl<'a> Client<'a> {
    /// One that has taken nothing.
    pub fn new(alloc: Global, room: usize, has_ended: &'a AtomicBool) -> Client<'a> {
        Client {
            octets: Vec::new(alloc),
            room,
            has_ended,
            has_failed: false,
        }
    }
}

impl<'a> Outgoing for Client<'a> {
    ghost contents = { λ _. None };

    ghost has_failed = { λ client. client.has_failed };

    fn hand(&mut self, octets: &[u8]) -> Result<(), Unwritten> {
        let count = octets.len().min(self.room);
        self.room -= count;
        if self.octets.extend_from_slice(&octets[..count]).is_err() || count < octets.len() {
            self.has_failed = true;
            return Err(Unwritten);
        }
        if has_termination(octets) {
            self.has_ended.store(true, Ordering::SeqCst);
        }
        Ok(())
    }
}

/// An outstation that takes all octets.
#[derive(Clone, Copy)]
pub struct Outstation;

impl Outgoing for Outstation {
    ghost contents = { λ _. None };

    ghost has_failed = { λ _. false };

    fn hand(&mut self, _octets: &[u8]) -> Result<(), Unwritten> {
        Ok(())
    }
}

/// The termination of a station interrogation of common address 1.
const TERMINATION: &[u8] = &[0x64, 0x01, 0x0A, 0x00, 0x01, 0x00, 0x00, 0x00, 0x00, 0x14];

/// Whether an interrogation's termination is among octets.
pub fn has_termination(octets: &[u8]) -> bool {
    for front in octets.windows(TERMINATION.len()) {
        if front == TERMINATION {
            return true;
        }
    }
    false
}

/// Reads what a client sends.
pub fn read_client<L: Course, S: Calls<L>, R: Wait + AllocGlobal, I: Incoming, G: Gate>(
    rt: &R,
    shared: &S,
    pass: Pass<L>,
    client: u8,
    input: &mut I,
    gate: &G,
) -> (Pass<L>, WorkerEnd) {
    client_reader(rt.alloc(), rt, shared, pass, client, input, &Still, gate)
}

/// Writes to a client.
pub fn write_client<L: Course, S: Calls<L>, R: Wait, W: Outgoing, G: Gate>(
    rt: &R,
    shared: &S,
    pass: Pass<L>,
    client: u8,
    writer: &mut W,
    gate: &G,
) -> (Pass<L>, WorkerEnd)
    requires { IsOne (L.roles.pumper client) pass.actor }
{
    client_writer(rt, shared, pass, client, writer, &Still, gate)
}

/// Reads what an outstation sends.
pub fn read_outstation<
    L: Course,
    N: LineCourse,
    S: Calls<L>,
    R: Wait + AllocGlobal,
    I: Incoming,
    W: Outgoing,
    G: Gate,
>(
    rt: &R,
    shared: &S,
    pass: Pass<L>,
    source: &Source,
    input: &mut I,
    line: &Line<W, N>,
    gate: &G,
) -> (Pass<L>, WorkerEnd) {
    let (pass, _front, end) = outstation_reader(
        rt.alloc(),
        rt,
        shared,
        pass,
        source.outstation,
        Receiver::new(rt.alloc(), MASTER, source.address),
        input,
        line,
        &Still,
        gate,
        Patience {
            for_clients: 0,
            for_answers: u64::MAX,
            for_status: u64::MAX,
        },
    );
    (pass, end)
}

/// The same, on a line of its own.
pub fn read_alone<L: Course, N: LineCourse, R: Wait + AllocGlobal, I: Incoming, G: Gate>(
    rt: &R,
    shared: &Shared<L>,
    pass: Pass<L>,
    source: &Source,
    input: &mut I,
    history: Opened<Sending>,
    gate: &G,
) -> (Pass<L>, WorkerEnd)
    requires book { history.seen.book ≡ N.book }
    requires addresses { (N.own ≡ 1024) × (N.peer ≡ source.now.address) }
    requires first { (N.first ≡ None) × (N.failed ≡ false) }
{
    let line: Line<Outstation, N> = Line::new(Outstation, MASTER, source.address, history);
    read_outstation(rt, shared, pass, source, input, &line, gate)
}
