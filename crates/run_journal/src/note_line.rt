//! The lines of the journal.

use crate::command_words::{AskedWords, ToldWords};
use crate::control_event::{CommandEvent, OrderEvent};
use crate::doubt::Doubt;
use crate::event::{JournalEvent, Priority, Subject};
use crate::reason::{Reason, ReasonWords};
use cmd_text::{Behind, Names, Plain};
use iec_command::Command;
use run_figures::{AndMore, Counted, Failure, Unreadable};
use run_status::Instant;
use std::fmt;
use std::net::IpAddr;

/// An event, and when it was.
#[derive(Drop)]
pub struct Note {
    /// When, in milliseconds since 1970 in UTC.
    pub wall: u64,
    /// What happened.
    pub event: JournalEvent,
}

/// A note as a line: when, whom it is of, and what happened, in words; and the name of what it is of, if that has one.
#[derive(Clone, Copy)]
pub struct NoteLine<'a> {
    /// The note.
    pub note: &'a Note,
    /// Where the outstations are reached, in the order of the settings.
    pub places: &'a [String],
    /// Whether the priority stands in front, as journald reads it.
    pub with_priority: bool,
    /// The names.
    pub names: &'a Names,
}

/// Octets in hexadecimal, two digits for each.
#[derive(Clone, Copy)]
struct Hexadecimal<'a>(&'a [u8]);

impl<'a> fmt::Display for Hexadecimal<'a> {
    fn fmt<W: fmt::Write>(&self, f: &mut fmt::Formatter<W>) -> fmt::Result {
        for octet in self.0 {
            write!(f, "{octet:02x}")?;
        }
        Ok(())
    }
}

impl<'a> fmt::Display for NoteLine<'a> {
    fn fmt<W: fmt::Write>(&self, f: &mut fmt::Formatter<W>) -> fmt::Result {
        let NoteLine {
            note,
            places,
            with_priority,
            names,
        } = *self;
        let priority = InFront(if with_priority {
            Some(note.event.priority())
        } else {
            None
        });
        let instant = Instant(note.wall);
        let happened = Happened {
            event: &note.event,
            places,
        };
        let name = Behind(note.event.name(names));
        write!(f, "{priority}{instant} {happened}{name}")
    }
}

/// The priority, as journald reads it in front of a line; nothing where it doesn't stand there.
#[derive(Clone, Copy)]
struct InFront(Option<Priority>);

impl fmt::Display for InFront {
    fn fmt<W: fmt::Write>(&self, f: &mut fmt::Formatter<W>) -> fmt::Result {
        match self.0 {
            Some(priority) => write!(f, "<{}>", priority as u8),
            None => Ok(()),
        }
    }
}

/// Whom an event is of, and what happened, in words.
#[derive(Clone, Copy)]
struct Happened<'a> {
    event: &'a JournalEvent,
    places: &'a [String],
}

impl<'a> fmt::Display for Happened<'a> {
    fn fmt<W: fmt::Write>(&self, f: &mut fmt::Formatter<W>) -> fmt::Result {
        match self.event.subject() {
            Subject::Gateway => self.write_of_gateway(f),
            Subject::Outstation(outstation) => {
                let place = self.place(outstation);
                write_of_peer(
                    f,
                    "outstation",
                    outstation,
                    &place,
                    &OutstationWords(self.event),
                )
            }
            Subject::Client(client, address) => {
                write_of_peer(f, "client", client, &address, &ClientWords(self.event))
            }
        }
    }
}

impl<'a> Happened<'a> {
    /// Where an outstation is reached.
    fn place(&self, outstation: u8) -> Plain<'a> {
        match self.places.get(usize::from(outstation)) {
            Some(place) => Plain(place.as_str()),
            None => Plain("-"),
        }
    }

    /// Writes what happened to the gateway as a whole.
    fn write_of_gateway<W: fmt::Write>(&self, f: &mut fmt::Formatter<W>) -> fmt::Result {
        match self.event {
            JournalEvent::Started { .. } => self.write_start(f),
            JournalEvent::Doubtful(doubt) => self.write_doubt(f, *doubt),
            JournalEvent::Listening(address) => write_said(f, "listening on", address),
            JournalEvent::AllPlacesTaken { left_out } => write_all_taken(f, *left_out),
            JournalEvent::PlaceFree => f.write_str("a place is free"),
            JournalEvent::NotAllowed { address, left_out } => {
                write_not_allowed(f, address, *left_out)
            }
            JournalEvent::NotAccepted(cause) => write_said(f, "no connection accepted:", cause),
            JournalEvent::RecordingEnded(ended) => write_said(f, "the", ended),
            JournalEvent::EventsHindered(trouble) => {
                write_said(f, "events aren't written:", trouble)
            }
            JournalEvent::EventsResumed => f.write_str("events are written again"),
            JournalEvent::EventsLeftOut(count) => {
                write_counted(f, *count, "observation", "left out of the events")
            }
            JournalEvent::HostStoodStill { milliseconds } => write_standstill(f, *milliseconds),
            JournalEvent::LeftOut(count) => write_counted(f, *count, "event", "left out"),
            JournalEvent::ControlsLeftOut(count) => {
                write_counted(f, *count, "event", "of controls left out")
            }
            JournalEvent::Stopped => f.write_str("stopped"),
            _ => Ok(()),
        }
    }

    /// Writes that the gateway starts, and with which settings.
    fn write_start<W: fmt::Write>(&self, f: &mut fmt::Formatter<W>) -> fmt::Result {
        let JournalEvent::Started {
            version,
            file,
            digest,
            rows,
            controls,
            outstations,
            shows_values,
        } = self.event
        else {
            return Ok(());
        };
        write!(
            f,
            "gateway {version} started: {} (SHA-256 {}), {}, {}, {}{}",
            Plain(file.as_str()),
            Hexadecimal(digest),
            Counted(*rows as u64, "point"),
            Counted(*controls as u64, "control"),
            Counted(*outstations as u64, "outstation"),
            if *shows_values {
                "; the status shows values of points"
            } else {
                ""
            }
        )
    }

    /// Writes what is doubtful in the settings.
    fn write_doubt<W: fmt::Write>(&self, f: &mut fmt::Formatter<W>, doubt: Doubt) -> fmt::Result {
        match doubt {
            Doubt::ConnectWithoutPort { outstation } => {
                write_no_port(f, outstation, self.place(outstation))
            }
            Doubt::SamePlace { first, second } => {
                write_same_place(f, first, second, self.place(first))
            }
        }
    }
}

/// What became of objects of a kind that isn't one of points.
const PASSED_OVER: &str = "passed over, of kinds that aren't taken";

/// What happened to an outstation, in words.
#[derive(Clone, Copy)]
struct OutstationWords<'a>(&'a JournalEvent);

impl<'a> fmt::Display for OutstationWords<'a> {
    fn fmt<W: fmt::Write>(&self, f: &mut fmt::Formatter<W>) -> fmt::Result {
        let words = match self.0 {
            JournalEvent::OutstationConnected { .. } => "connected",
            JournalEvent::OutstationUnreachable {
                cause,
                left_out,
                ..
            } => {
                return write_unreached(f, *cause, *left_out);
            }
            JournalEvent::OutstationLost { loss, .. } => return fmt::Display::fmt(loss, f),
            JournalEvent::OutstationRestarted { .. } => "restarted (IIN1.7)",
            JournalEvent::EventsOverflowed { .. } => "its event buffer overflowed (IIN2.3)",
            JournalEvent::ClockNotSet { .. } => "its clock can't be set (IIN1.4 stays)",
            JournalEvent::LinkStatusUnanswered { .. } => "doesn't answer a link status",
            JournalEvent::Unanswered { count, .. } => {
                return write_counted(f, *count, "request", "unanswered");
            }
            JournalEvent::FragmentRefused {
                fault,
                left_out,
                ..
            } => return write_unreadable(f, fault, *left_out),
            JournalEvent::OctetsSkipped { count, .. } => {
                return write_counted(f, *count, "octet", "skipped by the link");
            }
            JournalEvent::FramesStrayed { frames, .. } => return fmt::Display::fmt(frames, f),
            JournalEvent::ObjectsPassedOver { count, .. } => {
                return write_counted(f, *count, "object", PASSED_OVER);
            }
            JournalEvent::Order { order, what, .. } => return write_order(f, *order, what),
            _ => "",
        };
        f.write_str(words)
    }
}

/// What happened to a client, in words.
#[derive(Clone, Copy)]
struct ClientWords<'a>(&'a JournalEvent);

impl<'a> fmt::Display for ClientWords<'a> {
    fn fmt<W: fmt::Write>(&self, f: &mut fmt::Formatter<W>) -> fmt::Result {
        match self.0 {
            JournalEvent::ClientConnected { .. } => f.write_str("connected"),
            JournalEvent::TransferStarted { .. } => f.write_str("data transfer started"),
            JournalEvent::TransferStopped { .. } => f.write_str("data transfer stopped"),
            JournalEvent::ClientLost { loss, .. } => fmt::Display::fmt(loss, f),
            JournalEvent::NewsDropped { count, .. } => {
                write_counted(f, *count, "observation", "dropped, since too many waited")
            }
            JournalEvent::UnknownTypes { asdus, .. } => fmt::Display::fmt(asdus, f),
            JournalEvent::Command { command, what, .. } => write_command(f, command, *what),
            _ => Ok(()),
        }
    }
}

/// Writes words, and what follows them.
fn write_said<W: fmt::Write, D: fmt::Display>(
    f: &mut fmt::Formatter<W>,
    words: &str,
    what: &D,
) -> fmt::Result {
    write!(f, "{words} {what}")
}

/// Writes whom a line is of, and what happened to it.
fn write_of_peer<W: fmt::Write, P: fmt::Display, D: fmt::Display>(
    f: &mut fmt::Formatter<W>,
    kind: &str,
    number: u8,
    place: &P,
    what: &D,
) -> fmt::Result {
    write!(f, "{kind} {number} {place} {what}")
}

/// Writes why an outstation couldn't be connected, and how many more times it couldn't be.
fn write_unreached<W: fmt::Write>(
    f: &mut fmt::Formatter<W>,
    cause: Failure,
    left_out: u64,
) -> fmt::Result {
    let more = AndMore(left_out);
    write!(f, "not connected: {cause}{more}")
}

/// Writes that all places are taken, and how many more times they were.
fn write_all_taken<W: fmt::Write>(f: &mut fmt::Formatter<W>, left_out: u64) -> fmt::Result {
    let more = AndMore(left_out);
    write!(f, "all eight places are taken{more}")
}

/// Writes who isn't allowed to connect.
fn write_not_allowed<W: fmt::Write>(
    f: &mut fmt::Formatter<W>,
    address: &IpAddr,
    left_out: u64,
) -> fmt::Result {
    let more = AndMore(left_out);
    write!(f, "{address} isn't allowed to connect{more}")
}

/// Writes that the host stood still, and for how many seconds.
fn write_standstill<W: fmt::Write>(f: &mut fmt::Formatter<W>, milliseconds: u64) -> fmt::Result {
    let (seconds, tenths) = (milliseconds / 1000, milliseconds % 1000 / 100);
    write!(f, "the host stood still for {seconds}.{tenths} s")
}

/// Writes that the address of an outstation has no port.
fn write_no_port<W: fmt::Write>(
    f: &mut fmt::Formatter<W>,
    outstation: u8,
    place: Plain<'_>,
) -> fmt::Result {
    write!(
        f,
        "the address of outstation {outstation}, {place}, has no port"
    )
}

/// Writes that two outstations are one, as far as their settings tell.
fn write_same_place<W: fmt::Write>(
    f: &mut fmt::Formatter<W>,
    first: u8,
    second: u8,
    place: Plain<'_>,
) -> fmt::Result {
    write!(
        f,
        "outstations {first} and {second} are both reached at {place}, and have the same link address"
    )
}

/// Writes why a fragment couldn't be read, and how many more couldn't.
fn write_unreadable<W: fmt::Write>(
    f: &mut fmt::Formatter<W>,
    fault: &Unreadable,
    left_out: u64,
) -> fmt::Result {
    let more = AndMore(left_out);
    write!(f, "unreadable: {fault}{more}")
}

/// Writes what became of an order.
fn write_order<W: fmt::Write>(
    f: &mut fmt::Formatter<W>,
    order: u64,
    what: &OrderEvent,
) -> fmt::Result {
    write!(f, "order {order} {what}")
}

/// Writes that a command came, and was accepted as an order.
fn write_accepted<W: fmt::Write>(
    f: &mut fmt::Formatter<W>,
    command: &Command,
    order: u64,
) -> fmt::Result {
    let words = AskedWords(command);
    write!(f, "asks: {words}: order {order}")
}

/// Writes how many things there are, and what of them.
fn write_counted<W: fmt::Write>(
    f: &mut fmt::Formatter<W>,
    count: u64,
    name: &'static str,
    what: &str,
) -> fmt::Result {
    let things = Counted(count, name);
    write!(f, "{things} {what}")
}

/// Writes what happened with a command.
fn write_command<W: fmt::Write>(
    f: &mut fmt::Formatter<W>,
    command: &Command,
    what: CommandEvent,
) -> fmt::Result {
    match what {
        CommandEvent::Came { order: Some(order) } => write_accepted(f, command, order),
        CommandEvent::Came { order: None } => write_said(f, "asks:", &AskedWords(command)),
        CommandEvent::Told { reason: None } => write_said(f, "told:", &ToldWords(command)),
        CommandEvent::Told {
            reason: Some(reason),
        } => write_refused(f, command, reason),
    }
}

/// Writes that a command was confirmed negatively, and why.
fn write_refused<W: fmt::Write>(
    f: &mut fmt::Formatter<W>,
    command: &Command,
    reason: Reason,
) -> fmt::Result {
    let (words, reason) = (ToldWords(command), ReasonWords(reason, command));
    write!(f, "told: {words}: {reason}")
}
