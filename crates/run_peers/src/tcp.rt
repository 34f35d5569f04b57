//! What a TCP connection is told.

use std::net::{Shutdown, TcpStream};

/// Ends a connection in both directions; whoever reads or writes on it comes back.
pub fn shut(stream: &TcpStream) {
    let _ = stream.shutdown(Shutdown::Both);
}
