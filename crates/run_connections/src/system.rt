//! What connections, and a server of them, use of the system.

use std::net::{Net, TcpListener, TcpStream};
use std::rt::Clock;
use std::sync::Wait;
use std::thread::Threads;

/// A system with sockets, threads, waiting, a clock, and standard error.
pub trait System: Net<Listener = TcpListener, Stream = TcpStream>
    + Threads
    + Wait
    + Clock
    + Eprint
    + Sync {}

impl<
    R: Net<Listener = TcpListener, Stream = TcpStream> + Threads + Wait + Clock + Eprint + Sync,
> System for R {}
