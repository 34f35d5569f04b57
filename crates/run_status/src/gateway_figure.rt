//! The figures of the gateway as a whole.

use crate::family::{Family, Figure, Kind};
use crate::status::{Identity, LeftOut, Status};
use cmd_text::Escaped;
use std::fmt;

/// What there is a figure of.
#[derive(Clone, Copy)]
enum GatewayFigure {
    StartTime,
    Uptime,
    Steps,
    News,
    NotAllowed,
    Records,
    PassedOver,
    EventsLeftOut,
    Resident,
    Processor,
}

/// What each gateway has, in the order in which it is told.
const GATEWAY_FIGURES: &[(GatewayFigure, Family)] = &[
    (
        GatewayFigure::StartTime,
        Family {
            kind: Kind::Gauge,
            name: "gateway_start_time_seconds",
            help: "Unix time at which the gateway started.",
        },
    ),
    (
        GatewayFigure::Uptime,
        Family {
            kind: Kind::Gauge,
            name: "gateway_uptime_seconds",
            help: "Time since the gateway started.",
        },
    ),
    (
        GatewayFigure::Steps,
        Family {
            kind: Kind::Counter,
            name: "gateway_steps_total",
            help: "Steps of the core.",
        },
    ),
    (
        GatewayFigure::News,
        Family {
            kind: Kind::Counter,
            name: "gateway_news_total",
            help: "Spontaneous observations.",
        },
    ),
    (
        GatewayFigure::NotAllowed,
        Family {
            kind: Kind::Counter,
            name: "gateway_refused_connections_total",
            help: "Connections that weren't allowed.",
        },
    ),
];

/// What only some have, likewise: a record, values of points, events; and what the process takes, by the names that are usual
/// for any process, where the system tells.
const FURTHER_FIGURES: &[(GatewayFigure, Family)] = &[
    (
        GatewayFigure::Records,
        Family {
            kind: Kind::Gauge,
            name: "gateway_record_running",
            help: "Whether the record runs.",
        },
    ),
    (
        GatewayFigure::PassedOver,
        Family {
            kind: Kind::Counter,
            name: "gateway_values_passed_over_total",
            help: "Changes that the values of points passed over.",
        },
    ),
    (
        GatewayFigure::EventsLeftOut,
        Family {
            kind: Kind::Counter,
            name: "gateway_events_left_out_total",
            help: "Events that weren't written.",
        },
    ),
    (
        GatewayFigure::Resident,
        Family {
            kind: Kind::Gauge,
            name: "process_resident_memory_bytes",
            help: "Resident memory of the gateway.",
        },
    ),
    (
        GatewayFigure::Processor,
        Family {
            kind: Kind::Counter,
            name: "process_cpu_seconds_total",
            help: "Processor time that the gateway took.",
        },
    ),
];

impl GatewayFigure {
    /// What it is, if there is one.
    fn figure(self, status: &Status<'_>) -> Option<Figure> {
        match self {
            GatewayFigure::StartTime => Some(Figure::Time(status.started)),
            GatewayFigure::Uptime => Some(Figure::Time(status.uptime())),
            GatewayFigure::Steps => Some(Figure::Count(status.steps)),
            GatewayFigure::News => Some(Figure::Count(status.news)),
            GatewayFigure::NotAllowed => Some(Figure::Count(status.not_allowed)),
            GatewayFigure::Records => Some(Figure::yes_or_no(status.records?)),
            GatewayFigure::PassedOver => Some(Figure::Count(status.passed_over?)),
            GatewayFigure::EventsLeftOut => Some(Figure::Count(status.events_left_out?)),
            GatewayFigure::Resident => Some(Figure::Count(status.process?.resident)),
            GatewayFigure::Processor => Some(Figure::Time(status.process?.processor_ms)),
        }
    }
}

/// Writes the figures of the gateway.
pub fn write_gateway<W: fmt::Write>(f: &mut fmt::Formatter<W>, status: &Status<'_>) -> fmt::Result {
    write_info(f, status.identity)?;
    write_families(f, GATEWAY_FIGURES, status)?;
    write_left_out(f, status.left_out)?;
    write_families(f, FURTHER_FIGURES, status)
}

/// Writes which gateway it is.
fn write_info<W: fmt::Write>(f: &mut fmt::Formatter<W>, identity: Identity<'_>) -> fmt::Result {
    let version = Escaped::label(identity.version);
    write!(
        f,
        "# HELP gateway_info The version of the gateway, and which it is.\n\
        # TYPE gateway_info gauge\n\
        gateway_info{{version=\"{version}\""
    )?;
    write_label(f, "commit", identity.commit)?;
    write_label(f, "site", identity.site)?;
    f.write_str("} 1\n")
}

/// Writes a label behind others, if it has a value.
fn write_label<W: fmt::Write>(
    f: &mut fmt::Formatter<W>,
    name: &str,
    value: Option<&str>,
) -> fmt::Result {
    match value {
        Some(value) => write!(f, ",{name}=\"{}\"", Escaped::label(value)),
        None => Ok(()),
    }
}

/// Writes those families of which there is a figure.
fn write_families<W: fmt::Write>(
    f: &mut fmt::Formatter<W>,
    families: &[(GatewayFigure, Family)],
    status: &Status<'_>,
) -> fmt::Result {
    for (what, family) in families {
        if let Some(figure) = what.figure(status) {
            write_family(f, family, figure)?;
        }
    }
    Ok(())
}

/// Writes a family of one figure.
fn write_family<W: fmt::Write>(
    f: &mut fmt::Formatter<W>,
    family: &Family,
    figure: Figure,
) -> fmt::Result {
    let name = family.name;
    writeln!(f, "{family}{name} {figure}")
}

/// Writes how many lines of the log were left out.
fn write_left_out<W: fmt::Write>(f: &mut fmt::Formatter<W>, left_out: LeftOut) -> fmt::Result {
    let LeftOut {
        of_controls,
        others,
    } = left_out;
    write!(
        f,
        "# HELP gateway_left_out_lines_total Lines of the log that were left out.\n\
        # TYPE gateway_left_out_lines_total counter\n\
        gateway_left_out_lines_total{{kind=\"control\"}} {of_controls}\n\
        gateway_left_out_lines_total{{kind=\"other\"}} {others}\n"
    )
}
