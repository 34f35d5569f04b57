//! The figures of a place for a client.

use crate::family::{Family, Figure, Kind};
use crate::status::ClientStatus;
use std::fmt;
use std::net::SocketAddr;

/// What there is a figure of.
#[derive(Clone, Copy)]
enum ClientFigure {
    Connected,
    ConnectedSince,
    DataTransfer,
    Unacknowledged,
    Queued,
    Dropped,
}

/// All of them, in the order in which they are told.
const CLIENT_FIGURES: &[(ClientFigure, Family)] = &[
    (
        ClientFigure::Connected,
        Family {
            kind: Kind::Gauge,
            name: "gateway_client_connected",
            help: "Whether a client is connected at this place.",
        },
    ),
    (
        ClientFigure::ConnectedSince,
        Family {
            kind: Kind::Gauge,
            name: "gateway_client_connection_start_time_seconds",
            help: "Unix time since which the connection stands.",
        },
    ),
    (
        ClientFigure::DataTransfer,
        Family {
            kind: Kind::Gauge,
            name: "gateway_client_data_transfer",
            help: "Whether data transfer is started.",
        },
    ),
    (
        ClientFigure::Unacknowledged,
        Family {
            kind: Kind::Gauge,
            name: "gateway_client_unacknowledged_apdus",
            help: "I formats sent and not acknowledged.",
        },
    ),
    (
        ClientFigure::Queued,
        Family {
            kind: Kind::Gauge,
            name: "gateway_client_queued_observations",
            help: "Observations that wait.",
        },
    ),
    (
        ClientFigure::Dropped,
        Family {
            kind: Kind::Counter,
            name: "gateway_client_dropped_observations_total",
            help: "Observations dropped since too many waited.",
        },
    ),
];

impl ClientFigure {
    /// What it is at a place, if there is one.
    fn figure(self, client: &ClientStatus) -> Option<Figure> {
        match self {
            ClientFigure::Connected => Some(Figure::yes_or_no(client.address.is_some())),
            ClientFigure::ConnectedSince => Some(Figure::Time(client.connected_since?)),
            ClientFigure::DataTransfer => Some(Figure::yes_or_no(client.state.transfers())),
            ClientFigure::Unacknowledged => Some(Figure::Count(client.unacknowledged)),
            ClientFigure::Queued => Some(Figure::Count(client.queued)),
            ClientFigure::Dropped => Some(Figure::Count(client.dropped)),
        }
    }
}

/// Writes the figures of the places.
pub fn write_clients<W: fmt::Write>(
    f: &mut fmt::Formatter<W>,
    clients: &[ClientStatus],
) -> fmt::Result {
    write_families(f, clients)?;
    write_addresses(f, clients)?;
    write_closes(f, clients)?;
    write_refusals(f, clients)
}

/// Writes each family that has figures of places alone.
fn write_families<W: fmt::Write>(
    f: &mut fmt::Formatter<W>,
    clients: &[ClientStatus],
) -> fmt::Result {
    for (what, family) in CLIENT_FIGURES {
        write_family(f, *what, family, clients)?;
    }
    Ok(())
}

/// Writes a family of figures, one for each place that has one.
fn write_family<W: fmt::Write>(
    f: &mut fmt::Formatter<W>,
    what: ClientFigure,
    family: &Family,
    clients: &[ClientStatus],
) -> fmt::Result {
    fmt::Display::fmt(family, f)?;
    for (number, client) in clients.iter().enumerate() {
        if let Some(figure) = what.figure(client) {
            write_figure(f, family.name, number, figure)?;
        }
    }
    Ok(())
}

/// Writes a figure of the family of a name, with the label of a place.
fn write_figure<W: fmt::Write>(
    f: &mut fmt::Formatter<W>,
    name: &str,
    number: usize,
    figure: Figure,
) -> fmt::Result {
    writeln!(f, "{name}{{client=\"{number}\"}} {figure}")
}

/// Writes who is connected at each place. The address, which changes with each connection, is a label of this family alone.
fn write_addresses<W: fmt::Write>(
    f: &mut fmt::Formatter<W>,
    clients: &[ClientStatus],
) -> fmt::Result {
    f.write_str(
        "# HELP gateway_client_info Who is connected at this place.\n\
        # TYPE gateway_client_info gauge\n",
    )?;
    for (number, client) in clients.iter().enumerate() {
        if let Some(address) = client.address {
            write_address(f, number, address)?;
        }
    }
    Ok(())
}

/// Writes who is connected at a place.
fn write_address<W: fmt::Write>(
    f: &mut fmt::Formatter<W>,
    number: usize,
    address: SocketAddr,
) -> fmt::Result {
    writeln!(
        f,
        "gateway_client_info{{client=\"{number}\",address=\"{address}\"}} 1"
    )
}

/// Why connections of places ended.
const CLOSES: Family = Family {
    kind: Kind::Counter,
    name: "gateway_client_closes_total",
    help: "Connections of this place that ended, by cause.",
};

/// Why commands from places were refused.
const REFUSALS: Family = Family {
    kind: Kind::Counter,
    name: "gateway_client_refused_commands_total",
    help: "Commands for controls from this place that were refused, by cause.",
};

/// Writes why connections of each place ended.
fn write_closes<W: fmt::Write>(f: &mut fmt::Formatter<W>, clients: &[ClientStatus]) -> fmt::Result {
    fmt::Display::fmt(&CLOSES, f)?;
    for (number, client) in clients.iter().enumerate() {
        write_causes(f, CLOSES.name, number, &client.closes.by_cause())?;
    }
    Ok(())
}

/// Writes why commands from each place were refused.
fn write_refusals<W: fmt::Write>(
    f: &mut fmt::Formatter<W>,
    clients: &[ClientStatus],
) -> fmt::Result {
    fmt::Display::fmt(&REFUSALS, f)?;
    for (number, client) in clients.iter().enumerate() {
        write_causes(f, REFUSALS.name, number, &client.refusals.by_cause())?;
    }
    Ok(())
}

/// Writes the figures of a place in the family of a name, one for each cause.
fn write_causes<W: fmt::Write>(
    f: &mut fmt::Formatter<W>,
    name: &str,
    number: usize,
    causes: &[(&'static str, u64)],
) -> fmt::Result {
    for (cause, count) in causes {
        write_cause(f, name, number, cause, *count)?;
    }
    Ok(())
}

/// Writes how often a cause was that of a place.
fn write_cause<W: fmt::Write>(
    f: &mut fmt::Formatter<W>,
    name: &str,
    number: usize,
    cause: &str,
    count: u64,
) -> fmt::Result {
    writeln!(f, "{name}{{client=\"{number}\",cause=\"{cause}\"}} {count}")
}
