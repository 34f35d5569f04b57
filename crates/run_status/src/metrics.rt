//! All figures in Prometheus' text format.

use crate::client_figure::write_clients;
use crate::gateway_figure::write_gateway;
use crate::outstation_figure::write_outstations;
use crate::status::Status;
use std::fmt;

/// The figures of a status in Prometheus' text format, version 0.0.4.
#[derive(Clone, Copy)]
pub struct Metrics<'a>(pub &'a Status<'a>);

impl<'a> fmt::Display for Metrics<'a> {
    fn fmt<W: fmt::Write>(&self, f: &mut fmt::Formatter<W>) -> fmt::Result {
        let status = self.0;
        write_gateway(f, status)?;
        write_outstations(f, status.outstations.as_slice())?;
        write_clients(f, status.clients.as_slice())
    }
}
