//! What accepts clients.

use crate::network::Network;
use std::io::Stdin;
use std::net::TcpListener;

/// What accepts clients: which of them, how many, and until when.
#[derive(Clone, Copy)]
pub struct Acceptor<'a> {
    /// Where they connect.
    pub listener: &'a TcpListener,
    /// How many are served, if that is bounded.
    pub sessions: Option<u32>,
    /// Where they may come from; from everywhere where none is named.
    pub allow: &'a [Network],
    /// Standard input, where none is accepted any more once that ends.
    pub until_eof: Option<Stdin>,
}
