//! What is served to those who ask for the status.
ghost use Rattle.std.specs.Prelude.{◌≤◌};

use crate::event_queue::EventQueue;
use crate::process::ProcessFiles;
use crate::values::Values;
use gw_model::OUTSTATIONS;
use run_admission::Acceptor;
use run_peers::OutstationLink;
use run_status::Identity;
use std::net::TcpListener;

/// What is served to those who ask for the status.
#[derive(Drop)]
pub struct StatusSource<'a> {
    /// What accepts clients.
    pub acceptor: Acceptor<'a>,
    /// The links to the outstations.
    pub links: &'a [OutstationLink],
    /// Which gateway this is.
    pub identity: Identity<'a>,
    /// Whether it is wrong that no client transfers data.
    pub needs_centre: bool,
    /// Whether steps are to be taken down.
    pub is_recorded: bool,
    /// Where the system tells what the process takes, if it does.
    pub process: Option<&'a ProcessFiles>,
    /// The values of points, where they are shown.
    pub values: Option<&'a Values<'a>>,
    /// Where spontaneous observations go that are written, where they are.
    pub events: Option<&'a EventQueue>,
    /// Where the status is served, if it is.
    pub status: Option<&'a TcpListener>,
    /// When the server started, in milliseconds since 1970 in UTC.
    pub started: u64,
}

impl<'a> StatusSource<'a> {
    /// How many outstations are served.
    pub fn outstations(&self) -> u8
        ensures { result ≤ 32 }
    {
        self.links.len().min(usize::from(OUTSTATIONS)) as u8
    }
}
