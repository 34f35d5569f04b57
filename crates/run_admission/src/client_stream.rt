//! A client's connection, as far as others than its workers know it.

use run_peers::shut;
use std::net::TcpStream;

/// The connection of a client, which can be shut from elsewhere than by its workers.
pub trait ClientStream {
    /// A second handle of it, if there can be one.
    fn handle(&self) -> Option<Self>;

    /// Ends it in both directions; whoever reads or writes on it comes back.
    fn shut(&self);
}

impl ClientStream for TcpStream {
    fn handle(&self) -> Option<TcpStream> {
        self.try_clone().ok()
    }

    fn shut(&self) {
        shut(self);
    }
}
