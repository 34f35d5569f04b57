//! The figures of an outstation.

use crate::family::{Family, Figure, Kind};
use crate::indications::{MEANINGS, is_set, name_of};
use crate::status::OutstationStatus;
use cmd_text::Escaped;
use std::fmt;

/// What there is a figure of.
#[derive(Clone, Copy)]
enum OutstationFigure {
    Connected,
    ConnectedSince,
    Answered,
    LastAnswer,
    Requests,
    Unanswered,
    Refused,
    Skipped,
    PassedOver,
    Events,
    ClockNotSet,
    Points,
    NotTopical,
    NeverTold,
    Accepted,
    Done,
    Failed,
    LetGo,
    Waiting,
}

/// The figures of the connection and of what came on it, in the order in which they are told.
const OUTSTATION_FIGURES: &[(OutstationFigure, Family)] = &[
    (
        OutstationFigure::Connected,
        Family {
            kind: Kind::Gauge,
            name: "gateway_outstation_connected",
            help: "Whether a connection to the outstation stands.",
        },
    ),
    (
        OutstationFigure::ConnectedSince,
        Family {
            kind: Kind::Gauge,
            name: "gateway_outstation_connection_start_time_seconds",
            help: "Unix time since which the connection stands.",
        },
    ),
    (
        OutstationFigure::Answered,
        Family {
            kind: Kind::Gauge,
            name: "gateway_outstation_answered",
            help: "Whether the outstation has answered since it connected.",
        },
    ),
    (
        OutstationFigure::LastAnswer,
        Family {
            kind: Kind::Gauge,
            name: "gateway_outstation_last_answer_time_seconds",
            help: "Unix time of the last answer.",
        },
    ),
    (
        OutstationFigure::Requests,
        Family {
            kind: Kind::Counter,
            name: "gateway_outstation_requests_total",
            help: "Requests sent to the outstation.",
        },
    ),
    (
        OutstationFigure::Unanswered,
        Family {
            kind: Kind::Counter,
            name: "gateway_outstation_unanswered_requests_total",
            help: "Requests not answered in time.",
        },
    ),
    (
        OutstationFigure::Refused,
        Family {
            kind: Kind::Counter,
            name: "gateway_outstation_refused_fragments_total",
            help: "Fragments of the outstation that were refused.",
        },
    ),
    (
        OutstationFigure::Skipped,
        Family {
            kind: Kind::Counter,
            name: "gateway_outstation_skipped_bytes_total",
            help: "Octets of the outstation that the link skipped.",
        },
    ),
    (
        OutstationFigure::PassedOver,
        Family {
            kind: Kind::Counter,
            name: "gateway_outstation_passed_over_objects_total",
            help: "Objects of the outstation of kinds that aren't taken.",
        },
    ),
    (
        OutstationFigure::Events,
        Family {
            kind: Kind::Counter,
            name: "gateway_outstation_events_total",
            help: "Events that the outstation reported.",
        },
    ),
    (
        OutstationFigure::ClockNotSet,
        Family {
            kind: Kind::Gauge,
            name: "gateway_outstation_clock_not_set",
            help: "Whether the outstation isn't polled since its clock can't be set.",
        },
    ),
    (
        OutstationFigure::Points,
        Family {
            kind: Kind::Gauge,
            name: "gateway_outstation_points",
            help: "Points of the outstation.",
        },
    ),
    (
        OutstationFigure::NotTopical,
        Family {
            kind: Kind::Gauge,
            name: "gateway_outstation_not_topical_points",
            help: "Points whose last value isn't topical.",
        },
    ),
    (
        OutstationFigure::NeverTold,
        Family {
            kind: Kind::Gauge,
            name: "gateway_outstation_never_told_points",
            help: "Points that no response had, though all were asked for.",
        },
    ),
];

/// Those of the orders for it, likewise.
const ORDER_FIGURES: &[(OutstationFigure, Family)] = &[
    (
        OutstationFigure::Accepted,
        Family {
            kind: Kind::Counter,
            name: "gateway_outstation_orders_total",
            help: "Commands accepted as orders for the outstation.",
        },
    ),
    (
        OutstationFigure::Done,
        Family {
            kind: Kind::Counter,
            name: "gateway_outstation_done_orders_total",
            help: "Orders that the outstation did.",
        },
    ),
    (
        OutstationFigure::Failed,
        Family {
            kind: Kind::Counter,
            name: "gateway_outstation_failed_orders_total",
            help: "Orders that failed.",
        },
    ),
    (
        OutstationFigure::LetGo,
        Family {
            kind: Kind::Counter,
            name: "gateway_outstation_let_go_orders_total",
            help: "Orders whose client's session ended before they were given.",
        },
    ),
    (
        OutstationFigure::Waiting,
        Family {
            kind: Kind::Gauge,
            name: "gateway_outstation_waiting_orders",
            help: "Orders that wait for the outstation, or for its answer.",
        },
    ),
];

impl OutstationFigure {
    /// What it is at an outstation, if there is one.
    fn figure(self, outstation: &OutstationStatus) -> Option<Figure> {
        let count = match self {
            OutstationFigure::Connected => {
                return Some(Figure::yes_or_no(outstation.connected_since.is_some()));
            }
            OutstationFigure::ConnectedSince => {
                return Some(Figure::Time(outstation.connected_since?));
            }
            OutstationFigure::LastAnswer => return Some(Figure::Time(outstation.last_answer?)),
            OutstationFigure::Answered => u64::from(outstation.has_answered),
            OutstationFigure::ClockNotSet => u64::from(outstation.is_clock_not_set),
            OutstationFigure::Points => outstation.points.all,
            OutstationFigure::NotTopical => outstation.points.not_topical,
            OutstationFigure::NeverTold => outstation.points.never_told,
            OutstationFigure::Requests => outstation.requests,
            OutstationFigure::Unanswered => outstation.unanswered,
            OutstationFigure::Refused => outstation.refused,
            OutstationFigure::Skipped => outstation.skipped,
            OutstationFigure::PassedOver => outstation.passed_over,
            OutstationFigure::Events => outstation.events,
            OutstationFigure::Accepted => outstation.orders.accepted,
            OutstationFigure::Done => outstation.orders.done,
            OutstationFigure::Failed => outstation.orders.failed,
            OutstationFigure::LetGo => outstation.orders.let_go,
            OutstationFigure::Waiting => outstation.orders.waiting,
        };
        Some(Figure::Count(count))
    }
}

/// Writes the figures of the outstations.
pub fn write_outstations<W: fmt::Write>(
    f: &mut fmt::Formatter<W>,
    outstations: &[OutstationStatus],
) -> fmt::Result {
    write_families(f, OUTSTATION_FIGURES, outstations)?;
    write_indications(f, outstations)?;
    write_families(f, ORDER_FIGURES, outstations)?;
    write_outcomes(f, outstations)
}

/// Writes families that have figures of outstations alone.
fn write_families<W: fmt::Write>(
    f: &mut fmt::Formatter<W>,
    families: &[(OutstationFigure, Family)],
    outstations: &[OutstationStatus],
) -> fmt::Result {
    for (what, family) in families {
        write_family(f, *what, family, outstations)?;
    }
    Ok(())
}

/// Writes a family of figures, one for each outstation that has one.
fn write_family<W: fmt::Write>(
    f: &mut fmt::Formatter<W>,
    what: OutstationFigure,
    family: &Family,
    outstations: &[OutstationStatus],
) -> fmt::Result {
    fmt::Display::fmt(family, f)?;
    for (number, outstation) in outstations.iter().enumerate() {
        if let Some(figure) = what.figure(outstation) {
            write_figure(f, family.name, Labels { number, outstation }, figure)?;
        }
    }
    Ok(())
}

/// Writes a figure of the family of a name, with the labels of an outstation.
fn write_figure<W: fmt::Write>(
    f: &mut fmt::Formatter<W>,
    name: &str,
    labels: Labels<'_>,
    figure: Figure,
) -> fmt::Result {
    writeln!(f, "{name}{{{labels}}} {figure}")
}

/// The labels of an outstation: its number, where it is reached, and its name where it has one.
#[derive(Clone, Copy)]
struct Labels<'a> {
    number: usize,
    outstation: &'a OutstationStatus,
}

impl<'a> fmt::Display for Labels<'a> {
    fn fmt<W: fmt::Write>(&self, f: &mut fmt::Formatter<W>) -> fmt::Result {
        let Labels { number, outstation } = *self;
        let place = Escaped::label(outstation.place.as_str());
        write!(
            f,
            "outstation=\"{number}\",place=\"{place}\",target=\"{place}\""
        )?;
        let name = outstation.name.as_str();
        if name.is_empty() {
            Ok(())
        } else {
            write_name(f, Escaped::label(name))
        }
    }
}

/// Writes the label of a name.
fn write_name<W: fmt::Write>(f: &mut fmt::Formatter<W>, name: Escaped<'_>) -> fmt::Result {
    write!(f, ",name=\"{name}\"")
}

/// Writes the internal indications of the outstations that answered, one by one.
fn write_indications<W: fmt::Write>(
    f: &mut fmt::Formatter<W>,
    outstations: &[OutstationStatus],
) -> fmt::Result {
    f.write_str(
        "# HELP gateway_outstation_indication Whether the last response had this internal indication.\n\
        # TYPE gateway_outstation_indication gauge\n",
    )?;
    for (number, outstation) in outstations.iter().enumerate() {
        if outstation.last_answer.is_some() {
            write_indications_of(f, Labels { number, outstation })?;
        }
    }
    Ok(())
}

/// Writes the internal indications of an outstation.
fn write_indications_of<W: fmt::Write>(
    f: &mut fmt::Formatter<W>,
    labels: Labels<'_>,
) -> fmt::Result {
    for bit in 0..MEANINGS {
        let is_set = is_set(labels.outstation.indications, bit);
        write_indication(f, labels, name_of(bit), Figure::yes_or_no(is_set))?;
    }
    Ok(())
}

/// Writes whether an outstation has an internal indication.
fn write_indication<W: fmt::Write>(
    f: &mut fmt::Formatter<W>,
    labels: Labels<'_>,
    name: &str,
    figure: Figure,
) -> fmt::Result {
    writeln!(
        f,
        "gateway_outstation_indication{{{labels},indication=\"{name}\"}} {figure}"
    )
}

/// Writes how the orders of the outstations ended.
fn write_outcomes<W: fmt::Write>(
    f: &mut fmt::Formatter<W>,
    outstations: &[OutstationStatus],
) -> fmt::Result {
    f.write_str(
        "# HELP gateway_outstation_order_outcomes_total Orders for the outstation that ended, by how they did.\n\
        # TYPE gateway_outstation_order_outcomes_total counter\n",
    )?;
    for (number, outstation) in outstations.iter().enumerate() {
        write_outcomes_of(f, Labels { number, outstation })?;
    }
    Ok(())
}

/// Writes how the orders of an outstation ended.
fn write_outcomes_of<W: fmt::Write>(f: &mut fmt::Formatter<W>, labels: Labels<'_>) -> fmt::Result {
    for (outcome, count) in &labels.outstation.orders.by_outcome() {
        write_outcome(f, labels, outcome, *count)?;
    }
    Ok(())
}

/// Writes how many orders of an outstation ended so.
fn write_outcome<W: fmt::Write>(
    f: &mut fmt::Formatter<W>,
    labels: Labels<'_>,
    outcome: &str,
    count: u64,
) -> fmt::Result {
    writeln!(
        f,
        "gateway_outstation_order_outcomes_total{{{labels},outcome=\"{outcome}\"}} {count}"
    )
}
