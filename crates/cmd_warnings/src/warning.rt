//! What reads like a slip in settings that are accepted, in a sentence for a person.

use cmd_profile::{Names, Plain, Settings};
use std::fmt;

/// Something in accepted settings that reads like a slip. Outstations and controls go by their positions in the file.
#[derive(Clone, Copy)]
pub enum Warning<'a> {
    /// No client can connect: the station's address has no port.
    ListenWithoutPort {
        /// The address.
        listen: &'a str,
    },
    /// The station is reached on every interface of the machine, and controls are configured.
    ListenEverywhere {
        /// The station's address.
        listen: &'a str,
    },
    /// w is above two thirds of k, the most that IEC 60870-5-104, 5.5 recommends.
    WideWindow {
        /// How many I formats are received before they are acknowledged.
        w: u16,
        /// How many may be sent without acknowledgement.
        k: u16,
    },
    /// The rule has no time that is as far ahead of UTC as the station's clocks outside of summer time.
    RuleOfAnotherZone {
        /// How many minutes they are ahead.
        offset_minutes: i16,
    },
    /// The rule has a time that is neither the station's offset nor 60 minutes more ahead of UTC.
    OddSummer {
        /// How many minutes its clocks are ahead outside of summer time.
        offset_minutes: i16,
    },
    /// The address of an outstation has no port.
    ConnectWithoutPort {
        /// The outstation.
        outstation: u8,
        /// The address.
        connect: &'a str,
    },
    /// Two outstations have the same address of connection and the same link address.
    SamePlace {
        /// The one.
        first: u8,
        /// The other, behind it.
        second: u8,
    },
    /// Two outstations have the same address of connection and different link addresses: no other that has it stands
    /// between them.
    SharedConnect {
        /// The one.
        first: u8,
        /// The other, behind it.
        second: u8,
        /// The address of connection.
        connect: &'a str,
    },
    /// An outstation is polled more than a minute apart: its events come late, or, where it sends them unasked, its loss may show
    /// late.
    SlowPoll {
        /// The outstation.
        outstation: u8,
        /// From one poll to the next, in milliseconds.
        poll_ms: u64,
        /// Whether it may send events unasked.
        unsolicited: bool,
    },
    /// A response is awaited for less time than a fragment of one takes on a slow line, of an outstation with many points.
    ShortResponse {
        /// The outstation.
        outstation: u8,
        /// How long a response is awaited, in milliseconds.
        response_ms: u64,
        /// How many points it has.
        points: usize,
    },
    /// An outstation's points take far more I formats in the order of the file than sorted.
    UnsortedPoints {
        /// The outstation.
        outstation: u8,
        /// How many they take in the order of the file, where all are told one behind the other without time.
        as_listed: usize,
        /// How many they would take sorted by type and address.
        sorted: usize,
    },
    /// Two controls operate the same output of an outstation.
    SameOutput {
        /// The one.
        first: usize,
        /// The other, behind it.
        second: usize,
        /// The outstation.
        outstation: u8,
        /// The index of the output.
        index: u16,
    },
}

/// What a warning is of.
#[derive(Clone, Copy)]
enum Entry {
    /// The station.
    Station,
    /// The outstation at a position.
    Outstation(u8),
    /// The control at one.
    Control(usize),
}

impl<'a> fmt::Display for Warning<'a> {
    fn fmt<W: fmt::Write>(&self, f: &mut fmt::Formatter<W>) -> fmt::Result {
        self.write_entry(f)?;
        f.write_str(": ")?;
        self.write_slip(f)
    }
}

impl<'a> Warning<'a> {
    /// What it is of.
    fn entry(&self) -> Entry {
        match self {
            Warning::ListenWithoutPort { .. }
            | Warning::ListenEverywhere { .. }
            | Warning::WideWindow { .. }
            | Warning::RuleOfAnotherZone { .. }
            | Warning::OddSummer { .. } => Entry::Station,
            Warning::ConnectWithoutPort { outstation, .. }
            | Warning::SlowPoll { outstation, .. }
            | Warning::ShortResponse { outstation, .. }
            | Warning::UnsortedPoints { outstation, .. }
            | Warning::SamePlace {
                second: outstation,
                ..
            }
            | Warning::SharedConnect {
                second: outstation,
                ..
            } => Entry::Outstation(*outstation),
            Warning::SameOutput { second, .. } => Entry::Control(*second),
        }
    }

    /// What the entry is called, if it has a name.
    pub(crate) fn name<'b>(&self, settings: &Settings, names: &'b Names) -> Option<&'b str> {
        match self.entry() {
            Entry::Station => None,
            Entry::Outstation(outstation) => names.of_outstation(outstation),
            Entry::Control(position) => {
                let control = settings.controls().get(position)?;
                names.of_object(control.common_address, control.address)
            }
        }
    }

    /// Writes the section, and the position of the entry in it.
    fn write_entry<W: fmt::Write>(&self, f: &mut fmt::Formatter<W>) -> fmt::Result {
        match self.entry() {
            Entry::Station => f.write_str("station"),
            Entry::Outstation(outstation) => {
                write_numbered(f, "outstation", usize::from(outstation))
            }
            Entry::Control(position) => write_numbered(f, "control", position),
        }
    }

    /// Writes the key, and what is wrong there.
    fn write_slip<W: fmt::Write>(&self, f: &mut fmt::Formatter<W>) -> fmt::Result {
        match *self {
            Warning::ListenWithoutPort { listen } => write_without_port(f, "listen", listen),
            Warning::ListenEverywhere { listen } => write_everywhere(f, listen),
            Warning::WideWindow { w, k } => write_wide_window(f, w, k),
            Warning::RuleOfAnotherZone { offset_minutes } => write_other_zone(f, offset_minutes),
            Warning::OddSummer { offset_minutes } => write_odd_summer(f, offset_minutes),
            Warning::ConnectWithoutPort { connect, .. } => write_without_port(
                f, "connect", connect,
            ),
            Warning::SamePlace { first, .. } => write_same_place(f, first),
            Warning::SharedConnect { first, connect, .. } => write_shared(f, first, connect),
            Warning::SlowPoll {
                poll_ms,
                unsolicited,
                ..
            } => write_slow_poll(f, poll_ms, unsolicited),
            Warning::ShortResponse {
                response_ms,
                points,
                ..
            } => write_short_response(f, response_ms, points),
            Warning::UnsortedPoints {
                outstation,
                as_listed,
                sorted,
            } => write_unsorted(f, outstation, as_listed, sorted),
            Warning::SameOutput {
                first,
                outstation,
                index,
                ..
            } => write_same_output(f, first, outstation, index),
        }
    }
}

/// Writes an entry of a section by its position.
fn write_numbered<W: fmt::Write>(
    f: &mut fmt::Formatter<W>,
    section: &str,
    position: usize,
) -> fmt::Result {
    write!(f, "{section} {position}")
}

/// Writes that w is too large for k.
fn write_wide_window<W: fmt::Write>(f: &mut fmt::Formatter<W>, w: u16, k: u16) -> fmt::Result {
    write!(f, "w = {w} is above two thirds of k = {k}")
}

/// Writes that the rule never has the station's offset.
fn write_other_zone<W: fmt::Write>(f: &mut fmt::Formatter<W>, offset_minutes: i16) -> fmt::Result {
    write!(
        f,
        "rule is never offset_minutes = {offset_minutes} ahead of UTC"
    )
}

/// Writes which other outstation is reached at the same place.
fn write_same_place<W: fmt::Write>(f: &mut fmt::Formatter<W>, first: u8) -> fmt::Result {
    write!(f, "address and connect are those of outstation {first}")
}

/// Writes which other outstation is reached at the same address of connection.
fn write_shared<W: fmt::Write>(f: &mut fmt::Formatter<W>, first: u8, connect: &str) -> fmt::Result {
    let connect = Plain(connect);
    write!(
        f,
        "connect = \"{connect}\" is that of outstation {first} too: each has a connection of its own, and on one bus their answers collide"
    )
}

/// Writes how seldom an outstation is polled, and what comes of it.
fn write_slow_poll<W: fmt::Write>(
    f: &mut fmt::Formatter<W>,
    poll_ms: u64,
    unsolicited: bool,
) -> fmt::Result {
    let what = if unsolicited {
        ": a dead connection may show that late"
    } else {
        " while unsolicited is false"
    };
    write!(f, "poll_ms = {poll_ms} is above 60000{what}")
}

/// Writes for how short a time a response of many points is awaited.
fn write_short_response<W: fmt::Write>(
    f: &mut fmt::Formatter<W>,
    response_ms: u64,
    points: usize,
) -> fmt::Result {
    write!(
        f,
        "response_ms = {response_ms} is below 2000 with {points} points: a fragment of their values may take longer on a slow line"
    )
}

/// Writes how many I formats points take as they are listed, and how many sorted.
fn write_unsorted<W: fmt::Write>(
    f: &mut fmt::Formatter<W>,
    outstation: u8,
    as_listed: usize,
    sorted: usize,
) -> fmt::Result {
    write!(
        f,
        "its points take {as_listed} I formats as they stand, and {sorted} sorted: sort the points of outstation {outstation} \
         by type and address"
    )
}

/// Writes that the address at a key has no port.
fn write_without_port<W: fmt::Write>(
    f: &mut fmt::Formatter<W>,
    key: &str,
    address: &str,
) -> fmt::Result {
    let address = Plain(address);
    write!(f, "{key} = \"{address}\" has no port")
}

/// Writes that the station is reached on every interface.
fn write_everywhere<W: fmt::Write>(f: &mut fmt::Formatter<W>, listen: &str) -> fmt::Result {
    let listen = Plain(listen);
    write!(
        f,
        "listen = \"{listen}\" listens on all interfaces while controls are configured"
    )
}

/// Writes that a time of the rule isn't told.
fn write_odd_summer<W: fmt::Write>(f: &mut fmt::Formatter<W>, offset_minutes: i16) -> fmt::Result {
    write!(
        f,
        "rule has a time that is neither offset_minutes = {offset_minutes} nor 60 more ahead of UTC, and isn't told"
    )
}

/// Writes which other control operates the same output.
fn write_same_output<W: fmt::Write>(
    f: &mut fmt::Formatter<W>,
    first: usize,
    outstation: u8,
    index: u16,
) -> fmt::Result {
    write!(
        f,
        "index = {index} of outstation {outstation} is operated by control {first} too"
    )
}
