//! Standard input, whose end asks the server to end.

use crate::acceptor::Acceptor;
use crate::slots::Slots;
use std::io::{ErrorKind, Lock, Read, Stdin};
use std::sync::Wait;

/// How many octets of it are passed over at once.
const PIECE: usize = 512;

/// Waits until standard input ends, or can't be read, where that is to end the server; then no further client is
/// accepted.
pub fn await_end<R: Wait>(rt: &R, slots: &Slots, acceptor: &Acceptor<'_>) {
    if let Some(stdin) = acceptor.until_eof {
        read_to_end(rt, &stdin);
        slots.end(rt);
    }
}

/// Reads standard input until it ends, or can't be read.
fn read_to_end<R: Wait>(rt: &R, stdin: &Stdin) {
    let mut reader = stdin.lock();
    let mut buffer = [0; PIECE];
    for _ in rt.forever() {
        match reader.read(&mut buffer) {
            Ok(0) => break,
            Ok(_) => {}
            Err(error) if error.kind() == ErrorKind::Interrupted => {}
            Err(_) => break,
        }
    }
}
