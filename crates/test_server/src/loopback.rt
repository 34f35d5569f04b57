//! A test of run_server over the loopback: one session, with an outstation and a client that read only what the server
//! was seen to be about to write, so that none of its workers may wait for another to end.

use crate::seen::{Seen, is_seen};
use gw_map::Settings;
use run_server::{System, SystemClock, serve};
use std::io::{Read, Write};
use std::net::{Net, Shutdown, SocketAddr, TcpListener, TcpStream};
use std::process::Abort;
use std::rt::Clock as Sleeps;
use std::sync::Wait;
use std::sync::atomic::AtomicU64;
use std::thread::{self, Threads};
use std::time::Duration;

/// How many seconds a peer waits for octets that the server was about to write.
const PATIENCE: u64 = 10;

/// How many octets an outstation that has answered reads at once.
const PIECE: usize = 64;

/// How often an outstation that has answered reads at most.
const READS: u32 = 1_000_000;

/// The frame of an integrity poll, from 1024 to 1, with sequence numbers 0.
const POLL: [u8; 27] = [
    0x05, 0x64, 0x14, 0xC4, 0x01, 0x00, 0x00, 0x04, 0xD7, 0x60, //
    0xC0, 0xC0, 0x01, 0x3C, 0x02, 0x06, 0x3C, 0x03, 0x06, 0x3C, 0x04, 0x06, 0x3C, 0x01, 0x06, 0x8A,
    0x51,
];

/// The frame of its answer: binary input 5 is on.
const ANSWER: &[u8] = &[
    0x05, 0x64, 0x10, 0x44, 0x00, 0x04, 0x01, 0x00, 0xF3, 0x9A, //
    0xC0, 0xC0, 0x81, 0x00, 0x00, 0x01, 0x02, 0x00, 0x05, 0x05, 0x81, 0x05, 0xF0,
];

const STARTDT_ACT: &[u8] = &[0x68, 0x04, 0x07, 0x00, 0x00, 0x00];

const STARTDT_CON: [u8; 6] = [0x68, 0x04, 0x0B, 0x00, 0x00, 0x00];

/// A station interrogation.
const INTERROGATION: &[u8] = &[
    0x68, 0x0E, 0x00, 0x00, 0x00, 0x00, 0x64, 0x01, 0x06, 0x00, 0x01, 0x00, 0x00, 0x00, 0x00, 0x14,
];

/// Its answer: the confirmation, the binary input, the analog one, which wasn't reported yet, and the termination. (A
/// counter is no part of it.)
const INTERROGATED: [u8; 66] = [
    0x68, 0x0E, 0x00, 0x00, 0x02, 0x00, 0x64, 0x01, 0x07, 0x00, 0x01, 0x00, 0x00, 0x00, 0x00, 0x14, //
    0x68, 0x0E, 0x02, 0x00, 0x02, 0x00, 0x01, 0x01, 0x14, 0x00, 0x01, 0x00, 0x05, 0x10, 0x00, 0x01, //
    0x68, 0x10, 0x04, 0x00, 0x02, 0x00, 0x0B, 0x01, 0x14, 0x00, 0x01, 0x00, 0x69, 0x10, 0x00, 0x00,
    0x00, 0xC0, //
    0x68, 0x0E, 0x06, 0x00, 0x02, 0x00, 0x64, 0x01, 0x0A, 0x00, 0x01, 0x00, 0x00, 0x00, 0x00, 0x14,
];

#[test]
fn loopback(rt: HostRuntime) {
    let outstation = TcpListener::bind(&rt, "127.0.0.1:0").expect(&rt, "a listener");
    let server = TcpListener::bind(&rt, "127.0.0.1:0").expect(&rt, "a listener");
    meet(&rt, &outstation, &server);
}

/// The server and its two peers, each in a thread of its own, that listen here. (Its bounds are those of `System`,
/// spelled out for the test's proof.)
fn meet<
    R: Net<Listener = TcpListener, Stream = TcpStream>
        + Threads
        + Wait
        + Sleeps
        + Eprint
        + Abort
        + AllocGlobal
        + Sync,
>(rt: &R, outstation: &TcpListener, server: &TcpListener) {
    let seen = Seen {
        requests: AtomicU64::new(0),
        apdus: AtomicU64::new(0),
        responses: AtomicU64::new(0),
    };
    let are_right = thread::map_indices(
        rt,
        rt.alloc(),
        3,
        &|part| match part {
            0 => serve_one(rt, outstation, server, &seen),
            1 => answer(rt, outstation, &seen),
            _ => interrogate(rt, server, &seen),
        },
    )
    .expect(rt, "memory");
    assert_eq!(rt; are_right.as_slice(), [true; 3].as_slice());
}

/// Where a listener listens.
fn address_of<R: Abort>(rt: &R, listener: &TcpListener) -> SocketAddr {
    listener.local_addr().expect(rt, "an address")
}

/// Serves one session, to its end.
fn serve_one<R: System + Abort + AllocGlobal>(
    rt: &R,
    outstation: &TcpListener,
    server: &TcpListener,
    seen: &Seen,
) -> bool {
    let settings = settings_with(rt, address_of(rt, outstation));
    let clock = SystemClock::new(rt);
    let closed = serve(rt.alloc(), rt, settings, server, Some(1), &clock, seen).expect(
        rt, "memory",
    );
    // Both come up and go, the poll and its answer, the client's two APDUs, and pumps for their five answers.
    assert!(rt; closed.total >= 13, "{} calls", closed.total);
    true
}

/// Settings with an outstation at an address, and three points of it.
fn settings_with<R: Abort + AllocGlobal>(rt: &R, outstation: SocketAddr) -> Settings {
    let text = format!(in rt.alloc();
        "[station]
common_address = 1

[[outstation]]
address = 1
connect = \"{outstation}\"
poll_ms = 60000

[[point]]
outstation = 0
kind = \"binary\"
index = 5
address = 4101

[[point]]
outstation = 0
kind = \"analog\"
index = 0
address = 4201

[[point]]
outstation = 0
kind = \"counter\"
index = 0
address = 4301
"
    )
    .expect(rt, "memory");
    Settings::read(rt.alloc(), text.as_str()).expect(rt, "settings")
}

/// The outstation: answers the first poll, and reads on until the server is gone. Whether the poll was the wanted one.
fn answer<R: System + Abort>(rt: &R, listener: &TcpListener, seen: &Seen) -> bool {
    let (stream, _) = listener.accept().expect(rt, "the server connects");
    let is_right = is_seen(rt, &seen.requests, 1)
        && reads(&stream, &POLL)
        && writes(&stream, ANSWER)
        && reads_to_end(&stream);
    shut(&stream);
    is_right
}

/// The client, once the outstation's answer is known: starts, interrogates, and leaves. Whether it was answered as
/// wanted.
fn interrogate<R: System + Abort>(rt: &R, server: &TcpListener, seen: &Seen) -> bool {
    let is_known = is_seen(rt, &seen.responses, 1);
    let patience = Duration::from_secs(PATIENCE);
    let stream = TcpStream::connect_timeout(rt, &address_of(rt, server), patience).expect(
        rt,
        "the server accepts",
    );
    let is_right = is_known
        && writes(&stream, STARTDT_ACT)
        && is_seen(rt, &seen.apdus, 1)
        && reads(&stream, &STARTDT_CON)
        && writes(&stream, INTERROGATION)
        && is_seen(rt, &seen.apdus, 2)
        && reads(&stream, &INTERROGATED);
    shut(&stream);
    is_right
}

/// Ends a connection, unless the server has.
fn shut(stream: &TcpStream) {
    let _ = stream.shutdown(Shutdown::Both);
}

fn writes(mut stream: &TcpStream, octets: &[u8]) -> bool {
    stream.write_all(octets).is_ok()
}

/// Whether the next octets are these.
fn reads<const N: usize>(mut stream: &TcpStream, wanted: &[u8; N]) -> bool {
    let mut octets = [0; N];
    let _ = stream.set_read_timeout(Some(Duration::from_secs(PATIENCE)));
    stream.read_exact(&mut octets).is_ok() && octets == *wanted
}

/// Reads until nothing more comes.
fn reads_to_end(mut stream: &TcpStream) -> bool {
    let mut octets = [0; PIECE];
    for _ in 0..READS {
        if let Ok(0) | Err(_) = stream.read(&mut octets) {
            return true;
        }
    }
    false
}
