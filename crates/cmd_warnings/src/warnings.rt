//! Looking for what reads like a slip in settings that are accepted.

use crate::packing::{PointPlace, count_asdus};
use crate::warning::Warning;
use cmd_profile::{
    Behind, ClockRule, Control, Names, Operates, Outstation, Poll, Row, Settings, Station,
};
use indexmap::IndexMap;
use std::alloc::{AllocError, Global};
use std::io::{self, Write};
use std::net::SocketAddr;

/// The longest from one poll for events to the next that is usual without unsolicited responses, in milliseconds.
const LONGEST_POLL_MS: u64 = 60_000;

/// With more points than this an answer to an integrity poll is taken to fill a fragment.
const MANY_POINTS: usize = 500;

/// How long such a fragment may take on a slow line, in milliseconds: 2,048 octets take two seconds and more at 9,600 bits
/// a second.
const FRAGMENT_MS: u64 = 2000;

/// How many I formats sorting has to save to be worth it.
const LEAST_SAVED: usize = 10;

/// An output of an outstation. Its binary and its analog outputs are counted apart (IEEE Std 1815, groups 12 and 41).
#[derive(Clone, Copy, PartialEq, Eq, Hash)]
struct Output {
    outstation: u8,
    is_analog: bool,
    index: u16,
}

impl Output {
    /// What a control operates.
    fn of(control: &Control) -> Output {
        Output {
            outstation: control.outstation,
            is_analog: matches!(control.operates, Operates::Setpoint(_)),
            index: control.index,
        }
    }
}

/// What reads like a slip in settings: of the station, of each outstation, of each control, in the order of the file.
pub fn warnings_of<'a>(
    alloc: Global,
    settings: &'a Settings,
) -> Result<Vec<Warning<'a>>, AllocError> {
    let mut found = Vec::new(alloc);
    add_of_station(&mut found, settings)?;
    add_of_outstations(alloc, &mut found, settings)?;
    add_of_controls(alloc, &mut found, settings.controls())?;
    Ok(found)
}

/// Writes a line for each thing that reads like a slip in settings, with the name of what it is of behind it.
pub fn write_warnings<W: Write>(
    alloc: Global,
    settings: &Settings,
    names: &Names,
    writer: &mut W,
) -> io::Result<()> {
    let warnings = warnings_of(alloc, settings)?;
    for warning in &warnings {
        let name = Behind(warning.name(settings, names));
        write_line(warning, name, writer)?;
    }
    Ok(())
}

fn write_line<W: Write>(warning: &Warning<'_>, name: Behind<'_>, writer: &mut W) -> io::Result<()> {
    writeln!(writer, "warning: {warning}{name}")
}

/// Adds something that reads like a slip.
fn add<'a>(found: &mut Vec<Warning<'a>>, warning: Warning<'a>) -> Result<(), AllocError> {
    found.push(warning)?;
    Ok(())
}

fn add_of_station<'a>(
    found: &mut Vec<Warning<'a>>,
    settings: &'a Settings,
) -> Result<(), AllocError> {
    let station = settings.station();
    let listen = station.listen.as_str();
    let (w, k) = (station.w, station.k);
    if !has_port(listen) {
        add(found, Warning::ListenWithoutPort { listen })?;
    }
    if !settings.controls().is_empty() && is_everywhere(listen) {
        add(found, Warning::ListenEverywhere { listen })?;
    }
    if u32::from(w) * 3 > u32::from(k) * 2 {
        add(found, Warning::WideWindow { w, k })?;
    }
    add_of_rule(found, station)
}

/// Adds that the rule for summer time doesn't fit the offset of the station's clocks.
fn add_of_rule(found: &mut Vec<Warning>, station: &Station) -> Result<(), AllocError> {
    let Some(rule) = station.rule else {
        return Ok(());
    };
    let offset_minutes = station.offset_minutes;
    let (standard, daylight) = seconds_ahead(rule);
    let seconds = 60 * i32::from(offset_minutes);
    let is_told = |ahead: i32| ahead == seconds || ahead == seconds + 3600;
    if standard != seconds && daylight != seconds {
        add(found, Warning::RuleOfAnotherZone { offset_minutes })
    } else if !is_told(standard) || !is_told(daylight) {
        add(found, Warning::OddSummer { offset_minutes })
    } else {
        Ok(())
    }
}

/// How many seconds a rule's standard time and its daylight saving time are ahead of UTC; twice the same without one.
fn seconds_ahead(rule: ClockRule) -> (i32, i32) {
    let standard = rule.seconds;
    match rule.daylight {
        Some(daylight) => (standard, daylight.seconds),
        None => (standard, standard),
    }
}

fn add_of_outstations<'a>(
    alloc: Global,
    found: &mut Vec<Warning<'a>>,
    settings: &'a Settings,
) -> Result<(), AllocError> {
    for (position, outstation) in (0u8..).zip(settings.outstations()) {
        add_of_outstation(alloc, found, settings, position, outstation)?;
    }
    Ok(())
}

/// Adds what reads like a slip in an outstation at a position.
fn add_of_outstation<'a>(
    alloc: Global,
    found: &mut Vec<Warning<'a>>,
    settings: &'a Settings,
    position: u8,
    outstation: &'a Outstation,
) -> Result<(), AllocError> {
    let outstations = settings.outstations();
    add_of_connection(found, position, outstation)?;
    add_of_place(found, outstations, position, outstation)?;
    add_of_bus(found, outstations, position, outstation)?;
    add_of_poll(found, position, outstation.poll)?;
    add_of_points(alloc, found, position, outstation.poll, settings.rows())
}

/// Adds that the address of an outstation has no port.
fn add_of_connection<'a>(
    found: &mut Vec<Warning<'a>>,
    outstation: u8,
    settings: &'a Outstation,
) -> Result<(), AllocError> {
    let connect = settings.connect.as_str();
    if has_port(connect) {
        return Ok(());
    }
    add(
        found,
        Warning::ConnectWithoutPort {
            outstation,
            connect,
        },
    )
}

/// Adds that an outstation in front has the same address of connection and the same link address.
fn add_of_place(
    found: &mut Vec<Warning>,
    outstations: &[Outstation],
    second: u8,
    settings: &Outstation,
) -> Result<(), AllocError> {
    match first_like(outstations, settings) {
        Some(first) if first < second => add(found, Warning::SamePlace { first, second }),
        _ => Ok(()),
    }
}

/// Adds that the nearest outstation in front with the same address of connection has another link address.
fn add_of_bus<'a>(
    found: &mut Vec<Warning<'a>>,
    outstations: &[Outstation],
    second: u8,
    settings: &'a Outstation,
) -> Result<(), AllocError> {
    let connect = settings.connect.as_str();
    match last_reached_at(outstations, second, connect) {
        Some((first, address)) if address != settings.address => add(
            found,
            Warning::SharedConnect {
                first,
                second,
                connect,
            },
        ),
        _ => Ok(()),
    }
}

/// Adds that an outstation is polled more than a minute apart.
fn add_of_poll(found: &mut Vec<Warning>, outstation: u8, poll: Poll) -> Result<(), AllocError> {
    let Poll {
        poll_ms,
        unsolicited,
        ..
    } = poll;
    if poll_ms > LONGEST_POLL_MS {
        add(
            found,
            Warning::SlowPoll {
                outstation,
                poll_ms,
                unsolicited,
            },
        )
    } else {
        Ok(())
    }
}

/// Adds what reads like a slip in view of an outstation's points: how many they are, and how they are ordered.
fn add_of_points(
    alloc: Global,
    found: &mut Vec<Warning>,
    outstation: u8,
    poll: Poll,
    rows: &[Row],
) -> Result<(), AllocError> {
    let points = points_of(alloc, outstation, rows)?;
    add_of_response(found, outstation, poll.response_ms, points.len())?;
    add_of_order(found, outstation, points)
}

/// Adds that a response of an outstation with many points is awaited for too short a time.
fn add_of_response(
    found: &mut Vec<Warning>,
    outstation: u8,
    response_ms: u64,
    points: usize,
) -> Result<(), AllocError> {
    if points > MANY_POINTS && response_ms < FRAGMENT_MS {
        add(
            found,
            Warning::ShortResponse {
                outstation,
                response_ms,
                points,
            },
        )
    } else {
        Ok(())
    }
}

/// Adds that the points of an outstation would take less than half as many I formats, and ten fewer at least, if they were
/// sorted.
fn add_of_order(
    found: &mut Vec<Warning>,
    outstation: u8,
    mut points: Vec<PointPlace>,
) -> Result<(), AllocError> {
    let as_listed = count_asdus(&points);
    points.sort_unstable_by_key(|point| point.rank());
    let sorted = count_asdus(&points);
    let saved = as_listed.saturating_sub(sorted);
    // More than half is saved where more is saved than is left.
    if saved > sorted && saved >= LEAST_SAVED {
        add(
            found,
            Warning::UnsortedPoints {
                outstation,
                as_listed,
                sorted,
            },
        )
    } else {
        Ok(())
    }
}

/// The points of an outstation, in the order of the file.
fn points_of(alloc: Global, outstation: u8, rows: &[Row]) -> Result<Vec<PointPlace>, AllocError> {
    let mut points = Vec::new(alloc);
    for row in rows {
        if row.key.outstation == outstation {
            points.push(PointPlace::of(row))?;
        }
    }
    Ok(points)
}

fn add_of_controls(
    alloc: Global,
    found: &mut Vec<Warning>,
    controls: &[Control],
) -> Result<(), AllocError> {
    let mut operated = IndexMap::new(alloc);
    for (position, control) in controls.iter().enumerate() {
        add_of_control(found, &mut operated, position, Output::of(control))?;
    }
    Ok(())
}

/// Adds that the output of a control is operated by one in front; else this control is now the first to do so.
fn add_of_control(
    found: &mut Vec<Warning>,
    operated: &mut IndexMap<Output, usize>,
    position: usize,
    output: Output,
) -> Result<(), AllocError> {
    if let Some(first) = operated.get(&output) {
        let warning = Warning::SameOutput {
            first: *first,
            second: position,
            outstation: output.outstation,
            index: output.index,
        };
        return add(found, warning);
    }
    operated.insert(output, position)?;
    Ok(())
}

/// The first outstation with the same address of connection and the same link address.
fn first_like(outstations: &[Outstation], outstation: &Outstation) -> Option<u8> {
    let position = outstations.iter().position(|other| {
        other.address == outstation.address && other.connect.as_str() == outstation.connect.as_str()
    })?;
    u8::try_from(position).ok()
}

/// The last outstation in front of a position that has this address of connection, and its link address.
fn last_reached_at(outstations: &[Outstation], end: u8, connect: &str) -> Option<(u8, u16)> {
    let mut last = None;
    for (position, outstation) in (0..end).zip(outstations) {
        if outstation.connect.as_str() == connect {
            last = Some((position, outstation.address));
        }
    }
    last
}

/// Whether a place ends with a colon and the number of a port. The address of IPv6 in front of it stands in brackets.
fn has_port(place: &str) -> bool {
    match place.rsplit_once(':') {
        Some((host, port)) => {
            let is_host = !host.contains(':') || host.ends_with(']');
            is_host && port.parse::<u16>().is_ok()
        }
        None => false,
    }
}

/// Whether a place is a port on every interface of the machine: of 0.0.0.0, or [::].
fn is_everywhere(place: &str) -> bool {
    match place.parse::<SocketAddr>() {
        Ok(address) => address.ip().is_unspecified(),
        Err(_) => false,
    }
}
