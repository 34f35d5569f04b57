//! The rows of the page's tables. Each cell has the words above its column, which a narrow screen shows beside it.

use crate::indications::{ask_for_time, write_names};
use crate::state::{ClientState, write_before, write_client_words, write_outstation_words};
use crate::status::{ClientStatus, OutstationStatus, PointStatus};
use crate::time::{Moment, Span};
use cmd_text::Escaped;
use std::fmt;
use std::net::SocketAddr;

/// Writes the rows of the outstations at a moment.
pub fn write_outstations<W: fmt::Write>(
    f: &mut fmt::Formatter<W>,
    outstations: &[OutstationStatus],
    now: u64,
) -> fmt::Result {
    for (number, outstation) in outstations.iter().enumerate() {
        write_outstation(f, number, outstation, now)?;
    }
    Ok(())
}

/// Writes the row of an outstation.
fn write_outstation<W: fmt::Write>(
    f: &mut fmt::Formatter<W>,
    number: usize,
    outstation: &OutstationStatus,
    now: u64,
) -> fmt::Result {
    write_reached(f, number, outstation)?;
    write_state(f, outstation, now)?;
    write_answers(f, outstation, now)?;
    write_points(f, outstation.points)?;
    write_traffic(f, outstation)?;
    write_parts(f, "<td data-column=Orders>", &outstation.orders.by_fate())?;
    f.write_str("</tr>\n")
}

/// Writes the number of an outstation, where it is reached, and its addresses.
fn write_reached<W: fmt::Write>(
    f: &mut fmt::Formatter<W>,
    number: usize,
    outstation: &OutstationStatus,
) -> fmt::Result {
    let (link, common) = (outstation.address, outstation.common_address);
    write!(f, "<tr><th scope=row><i>{number}</i> ")?;
    write_place(f, outstation.name.as_str(), outstation.place.as_str())?;
    write!(
        f,
        " <small>link address {link}</small> <small>common address {common}</small></th>"
    )
}

/// Writes where an outstation is reached, below its name where it has one.
fn write_place<W: fmt::Write>(f: &mut fmt::Formatter<W>, name: &str, place: &str) -> fmt::Result {
    let place = Escaped::html(place);
    if name.is_empty() {
        fmt::Display::fmt(&place, f)
    } else {
        write_named(f, Escaped::html(name), place)
    }
}

/// Writes what an outstation is called, and below that where it is reached.
fn write_named<W: fmt::Write>(
    f: &mut fmt::Formatter<W>,
    name: Escaped<'_>,
    place: Escaped<'_>,
) -> fmt::Result {
    write!(f, "{name} <small>{place}</small>")
}

/// Writes the cell that tells how it is with an outstation, and since when, at a moment.
fn write_state<W: fmt::Write>(
    f: &mut fmt::Formatter<W>,
    outstation: &OutstationStatus,
    now: u64,
) -> fmt::Result {
    let since = outstation.state_since;
    let (span, moment) = (Span(now.saturating_sub(since)), Moment(since));
    f.write_str(if outstation.state.is_all_right() {
        "<td data-column=State>"
    } else {
        "<td class=wrong data-column=State>"
    })?;
    write_outstation_words(f, outstation)?;
    write_before(f, outstation)?;
    write!(
        f,
        " <small>for {span}</small> <small>since {moment}</small></td>"
    )
}

/// Writes the cells that tell when an outstation answered last, and what it indicated, at a moment.
fn write_answers<W: fmt::Write>(
    f: &mut fmt::Formatter<W>,
    outstation: &OutstationStatus,
    now: u64,
) -> fmt::Result {
    match outstation.last_answer {
        Some(at) => {
            write_answer(f, Span(now.saturating_sub(at)), Moment(at))?;
            write_indications(f, outstation)
        }
        None => f.write_str(
            "<td data-column=\"Last answer\">never</td><td data-column=Indications>none</td>",
        ),
    }
}

/// Writes how long ago an outstation answered, and when.
fn write_answer<W: fmt::Write>(f: &mut fmt::Formatter<W>, span: Span, at: Moment) -> fmt::Result {
    write!(
        f,
        "<td data-column=\"Last answer\">{span} ago <small>{at}</small></td>"
    )
}

/// Writes what an outstation indicated, as a caution where it asks for the time and isn't given it.
fn write_indications<W: fmt::Write>(
    f: &mut fmt::Formatter<W>,
    outstation: &OutstationStatus,
) -> fmt::Result {
    let indications = outstation.indications;
    f.write_str(if ask_for_time(indications) && !outstation.is_given_time {
        "<td class=caution data-column=Indications>"
    } else {
        "<td data-column=Indications>"
    })?;
    write_names(f, indications)?;
    write!(f, " <small>0x{indications:04X}</small></td>")
}

/// Writes the cell that tells how many points there are, and of how many the last value isn't topical, or was never told.
fn write_points<W: fmt::Write>(f: &mut fmt::Formatter<W>, points: PointStatus) -> fmt::Result {
    f.write_str(if points.never_told == 0 {
        "<td data-column=Points>"
    } else {
        "<td class=caution data-column=Points>"
    })?;
    fmt::Display::fmt(&points.all, f)?;
    write_smaller(f, points.not_topical, "not topical")?;
    write_smaller(f, points.never_told, "never told")?;
    f.write_str("</td>")
}

/// Writes the cells that tell how many events there were, how many requests, and how many of these weren't answered in time; and
/// what wasn't taken.
fn write_traffic<W: fmt::Write>(
    f: &mut fmt::Formatter<W>,
    outstation: &OutstationStatus,
) -> fmt::Result {
    let requests = outstation.requests;
    let not_taken = [
        ("fragments refused", outstation.refused),
        ("octets skipped", outstation.skipped),
        ("objects passed over", outstation.passed_over),
    ];
    write_count(f, "Events", outstation.events)?;
    write!(f, "<td class=number data-column=Requests>{requests}")?;
    write_smaller(f, outstation.unanswered, "unanswered")?;
    f.write_str("</td>")?;
    write_parts(f, "<td data-column=\"Not taken\">", &not_taken)
}

/// Writes how many there are of a part in a line of its own, where there are some.
fn write_smaller<W: fmt::Write>(f: &mut fmt::Formatter<W>, count: u64, part: &str) -> fmt::Result {
    if count == 0 {
        return Ok(());
    }
    write!(f, " <small>{count} {part}</small>")
}

/// Writes the cell of a number, with the words of its column.
fn write_count<W: fmt::Write>(f: &mut fmt::Formatter<W>, column: &str, count: u64) -> fmt::Result {
    write!(f, "<td class=number data-column=\"{column}\">{count}</td>")
}

/// Writes a cell, which begins so: how many there are of each part, where there are some, as `2 done, 1 waiting`; `none` where
/// there are none at all.
fn write_parts<W: fmt::Write>(
    f: &mut fmt::Formatter<W>,
    start: &str,
    parts: &[(&'static str, u64)],
) -> fmt::Result {
    f.write_str(start)?;
    let mut separator = "";
    for (part, count) in parts {
        if *count != 0 {
            write_part(f, separator, part, *count)?;
            separator = ", ";
        }
    }
    f.write_str(if separator.is_empty() {
        "none</td>"
    } else {
        "</td>"
    })
}

/// Writes how many there are of a part, behind those before it.
fn write_part<W: fmt::Write>(
    f: &mut fmt::Formatter<W>,
    separator: &str,
    part: &str,
    count: u64,
) -> fmt::Result {
    write!(f, "{separator}{count} {part}")
}

/// Writes the rows of the places for clients at a moment.
pub fn write_clients<W: fmt::Write>(
    f: &mut fmt::Formatter<W>,
    clients: &[ClientStatus],
    now: u64,
) -> fmt::Result {
    for (number, client) in clients.iter().enumerate() {
        write_client(f, number, client, now)?;
    }
    Ok(())
}

/// Writes the row of a place for a client.
fn write_client<W: fmt::Write>(
    f: &mut fmt::Formatter<W>,
    number: usize,
    client: &ClientStatus,
    now: u64,
) -> fmt::Result {
    write_peer(f, number, client.address)?;
    write_transfer(f, client, now)?;
    write_connected(f, client.connected_since, now)?;
    write_queue(f, client)?;
    write_parts(f, "<td data-column=Ended>", &client.closes.by_cause())?;
    f.write_str("</tr>\n")
}

/// Writes the number of a place, and who is connected there.
fn write_peer<W: fmt::Write>(
    f: &mut fmt::Formatter<W>,
    number: usize,
    address: Option<SocketAddr>,
) -> fmt::Result {
    match address {
        Some(address) => write_taken(f, number, address),
        None => write_free(f, number),
    }
}

/// Writes the number of a place at which somebody is connected.
fn write_taken<W: fmt::Write>(
    f: &mut fmt::Formatter<W>,
    number: usize,
    address: SocketAddr,
) -> fmt::Result {
    write!(f, "<tr><th scope=row><i>{number}</i> {address}</th>")
}

/// Writes the number of a place at which nobody is.
fn write_free<W: fmt::Write>(f: &mut fmt::Formatter<W>, number: usize) -> fmt::Result {
    write!(f, "<tr class=free><th scope=row><i>{number}</i></th>")
}

/// Writes the cell that tells how it is with a client, and since when it transfers data, at a moment.
fn write_transfer<W: fmt::Write>(
    f: &mut fmt::Formatter<W>,
    client: &ClientStatus,
    now: u64,
) -> fmt::Result {
    f.write_str(match client.state {
        ClientState::ReadsTooSlowly(_) => "<td class=wrong data-column=State>",
        _ => "<td data-column=State>",
    })?;
    write_client_words(f, client)?;
    if let Some(since) = client.transfers_since {
        write_transferring(f, Span(now.saturating_sub(since)))?;
    }
    f.write_str("</td>")
}

/// Writes for how long data transfer has been started.
fn write_transferring<W: fmt::Write>(f: &mut fmt::Formatter<W>, span: Span) -> fmt::Result {
    write!(f, " <small>data transfer for {span}</small>")
}

/// Writes the cell that tells since when a client is connected, at a moment.
fn write_connected<W: fmt::Write>(
    f: &mut fmt::Formatter<W>,
    since: Option<u64>,
    now: u64,
) -> fmt::Result {
    match since {
        Some(since) => write_since(f, Span(now.saturating_sub(since)), Moment(since)),
        None => f.write_str("<td data-column=Connected>no</td>"),
    }
}

/// Writes for how long a client has been connected, and since when.
fn write_since<W: fmt::Write>(f: &mut fmt::Formatter<W>, span: Span, at: Moment) -> fmt::Result {
    write!(
        f,
        "<td data-column=Connected>for {span} <small>since {at}</small></td>"
    )
}

/// Writes the cells that tell what a client hasn't acknowledged, what waits for it, and what was dropped.
fn write_queue<W: fmt::Write>(f: &mut fmt::Formatter<W>, client: &ClientStatus) -> fmt::Result {
    write_count(f, "Not acknowledged", client.unacknowledged)?;
    write_count(f, "Queued", client.queued)?;
    write_count(f, "Dropped", client.dropped)
}
