//! TCP connections as the workers' ends.
ghost use Rattle.std.specs.Prelude.{◌≡◌, ◌≤◌, false, None, IfOk, length};
ghost use Rattle.run_ends.specs.Ends.{IsWithin};

use crate::ending::Ending;
use gw_threads::{Arrival, Incoming, Outgoing, Unwritten};
use run_peers::OutstationLink;
use std::io::{self, ErrorKind, Read, Write};
use std::net::TcpStream;
use std::time::Duration;

/// How often an interrupted call is made again.
const TRIES: u32 = 1_000_000;

/// The milliseconds that a client's reader waits before it looks whether the client still stands.
const LOOK_MS: u64 = 250;

/// A connection to a client. A read that takes long comes back, so that the reader may look whether it is to go on.
/// That nothing more comes is noted in the connection's ending, before the reader tells it to the core.
#[derive(Clone, Copy)]
pub struct ClientSocket<'a> {
    stream: &'a TcpStream,
    ending: &'a Ending,
    /// Whether a read or a write of this value has failed.
    has_failed: bool,
}

/// A connection to an outstation. A write that takes too long fails, and so does a read, which comes back meanwhile, so that
/// the reader may look at the link. That nothing more comes is noted likewise.
#[derive(Clone, Copy)]
pub struct OutstationSocket<'a> {
    stream: &'a TcpStream,
    ending: &'a Ending,
    /// How many waits for octets may still follow each other in which none comes, the last of which fails.
    waits: u32,
    /// How many there may be behind octets.
    waits_at_most: u32,
    /// Whether a read or a write of this value has failed.
    has_failed: bool,
}

impl<'a> ClientSocket<'a> {
    /// A connection that was accepted. An option that can't be set leaves it as it is.
    pub fn new(stream: &'a TcpStream, ending: &'a Ending) -> ClientSocket<'a> {
        let _ = stream.set_nodelay(true);
        let _ = stream.set_read_timeout(Some(Duration::from_millis(LOOK_MS)));
        ClientSocket {
            stream,
            ending,
            has_failed: false,
        }
    }
}

impl<'a> OutstationSocket<'a> {
    /// A connection that was made; `link` says how long the outstation may be silent, and how long a write may take.
    /// An option that can't be set leaves it as it is.
    pub fn new(
        stream: &'a TcpStream,
        ending: &'a Ending,
        link: &OutstationLink,
    ) -> OutstationSocket<'a>
        ensures { result.has_failed ≡ false }
    {
        let _ = stream.set_nodelay(true);
        let _ = stream.set_read_timeout(Some(link.wait()));
        let _ = stream.set_write_timeout(Some(link.response));
        let waits = link.waits();
        OutstationSocket {
            stream,
            ending,
            waits,
            waits_at_most: waits,
            has_failed: false,
        }
    }

    /// A wait for octets has ended; whether it was one in which none came, and another one may follow.
    fn waits_on(&mut self, read: &io::Result<usize>) -> bool
        ensures { self.new.has_failed ≡ self.old.has_failed }
    {
        match read {
            Err(error) if is_timeout(error) => {
                self.waits = self.waits.saturating_sub(1);
                self.waits > 0
            }
            _ => {
                self.waits = self.waits_at_most;
                false
            }
        }
    }
}

/// Reads once; an interrupted read is made again.
fn read(mut stream: &TcpStream, buffer: &mut [u8]) -> io::Result<usize>
    ensures { IfOk result (λ count. count ≤ length buffer.new) }
{
    for _ in 0..TRIES {
        match stream.read(buffer) {
            Err(error) if error.kind() == ErrorKind::Interrupted => {}
            other => return other,
        }
    }
    Err(io::Error::from(ErrorKind::Interrupted))
}

/// What a read brought; that nothing more comes is noted.
fn arrival(read: io::Result<usize>, room: usize, ending: &Ending) -> Arrival
    requires { IfOk read (λ count. count ≤ room) }
    ensures { IsWithin result room }
{
    match read {
        Ok(0) => {
            ending.note_reader();
            Arrival::End
        }
        Ok(count) => Arrival::Octets(count),
        Err(error) => {
            ending.note_not_read(error.kind());
            Arrival::Fault
        }
    }
}

/// Whether a wait took as long as it may.
fn is_timeout(error: &io::Error) -> bool {
    matches!(error.kind(), ErrorKind::WouldBlock | ErrorKind::TimedOut)
}

impl<'a> Incoming for ClientSocket<'a> {
    ghost given = { λ _. None };

    ghost has_failed = { λ socket. socket.has_failed };

    fn receive(&mut self, buffer: &mut [u8]) -> Arrival {
        let arrival = match read(self.stream, buffer) {
            Err(error) if is_timeout(&error) => Arrival::Later,
            other => arrival(other, buffer.len(), self.ending),
        };
        self.has_failed = self.has_failed || arrival.is_fault();
        arrival
    }
}

impl<'a> Incoming for OutstationSocket<'a> {
    ghost given = { λ _. None };

    ghost has_failed = { λ socket. socket.has_failed };

    fn receive(&mut self, buffer: &mut [u8]) -> Arrival {
        let read = read(self.stream, buffer);
        let arrival = if self.waits_on(&read) {
            Arrival::Later
        } else {
            arrival(read, buffer.len(), self.ending)
        };
        self.has_failed = self.has_failed || arrival.is_fault();
        arrival
    }
}

/// Writes all octets. A write that takes none fails, an interrupted one is made again.
fn write(mut stream: &TcpStream, octets: &[u8], ending: &Ending) -> Result<(), Unwritten> {
    match stream.write_all(octets) {
        Ok(()) => Ok(()),
        Err(error) => {
            ending.note_not_written(error.kind());
            Err(Unwritten)
        }
    }
}

impl<'a> Outgoing for ClientSocket<'a> {
    ghost contents = { λ _. None };

    ghost has_failed = { λ socket. socket.has_failed };

    fn hand(&mut self, octets: &[u8]) -> Result<(), Unwritten> {
        let written = write(self.stream, octets, self.ending);
        self.has_failed = self.has_failed || written.is_err();
        written
    }
}

impl<'a> Outgoing for OutstationSocket<'a> {
    ghost contents = { λ _. None };

    ghost has_failed = { λ socket. socket.has_failed };

    fn hand(&mut self, octets: &[u8]) -> Result<(), Unwritten> {
        let written = write(self.stream, octets, self.ending);
        self.has_failed = self.has_failed || written.is_err();
        written
    }
}
