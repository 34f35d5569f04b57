//! What is said of a run beside its settings.

use run_admission::{Acceptor, Network};
use run_peers::OutstationLink;
use run_watch::{EventQueue, Identity, ProcessFiles, StatusSource, Values};
use std::io::Stdin;
use std::net::TcpListener;

/// What is said of a run beside its settings.
#[derive(Clone, Copy)]
pub struct Options<'a> {
    /// Which gateway this is.
    pub identity: Identity<'a>,
    /// How many connections of control centres are served, if that is bounded.
    pub sessions: Option<u32>,
    /// Where clients may come from; from everywhere where none is named.
    pub allow: &'a [Network],
    /// Standard input, where the server is to end once that does.
    pub until_eof: Option<Stdin>,
    /// Where the status is served, if it is.
    pub status: Option<&'a TcpListener>,
    /// Whether it is wrong that no control centre transfers data.
    pub needs_centre: bool,
    /// Whether steps are to be taken down.
    pub is_recorded: bool,
    /// Where the system tells what the process takes, if it does.
    pub process: Option<&'a ProcessFiles>,
    /// The values of points, where they are shown.
    pub values: Option<&'a Values<'a>>,
    /// Where spontaneous observations go that are written, where they are.
    pub events: Option<&'a EventQueue>,
}

impl<'a> Options<'a> {
    /// What accepts the clients that connect to a listener.
    pub fn acceptor(&self, listener: &'a TcpListener) -> Acceptor<'a> {
        Acceptor {
            listener,
            sessions: self.sessions,
            allow: self.allow,
            until_eof: self.until_eof,
        }
    }

    /// What is served with a listener for clients and these links to the outstations, from a time on.
    pub fn status_source(
        &self,
        listener: &'a TcpListener,
        links: &'a [OutstationLink],
        started: u64,
    ) -> StatusSource<'a> {
        StatusSource {
            acceptor: self.acceptor(listener),
            links,
            identity: Identity {
                listen: listener.local_addr().ok(),
                ..self.identity
            },
            needs_centre: self.needs_centre,
            is_recorded: self.is_recorded,
            process: self.process,
            values: self.values,
            events: self.events,
            status: self.status,
            started,
        }
    }
}
