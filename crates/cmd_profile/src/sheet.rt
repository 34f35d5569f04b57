//! The interoperability list of IEC 60870-5-104, clause 9, in its order: what is used, and what isn't.

use crate::causes::write_causes;
use crate::commands::{write_command_transmission, write_command_types};
use crate::form::{Form, write_marks};
use crate::types::{is_shown, point_types};
use cmd_text::Plain;
use gw_map::{Row, Settings, Show, Station};
use jiff::tz::TimeZone;
use jiff_tz::posix;
use std::{fmt, io};

const DEVICE: &str = "\
[ ] system definition
[ ] controlling station definition (master)
[x] controlled station definition (slave)";

const ADDRESSES: &str = "\
[ ] information object address: one or two octets; structured
[x] information object address: three octets, unstructured
[ ] cause of transmission: one octet
[x] cause of transmission: two octets, with originator address
[x] length of APDU: 253 at most, in both directions";

/// A way to show a point, without time or with it, at its place among the types.
#[derive(Clone, Copy)]
struct Listed {
    show: Show,
    is_timed: bool,
    /// The lines of the types behind it that no point has.
    unused_behind: &'static str,
}

const POINT_TYPES: [Listed; 10] = [
    Listed {
        show: Show::Single,
        is_timed: false,
        unused_behind: "",
    },
    Listed {
        show: Show::Double,
        is_timed: false,
        unused_behind: "[ ] 5 M_ST_NA_1 step position information\n",
    },
    Listed {
        show: Show::Word,
        is_timed: false,
        unused_behind: "[ ] 9 M_ME_NA_1 measured value, normalized\n",
    },
    Listed {
        show: Show::Scaled,
        is_timed: false,
        unused_behind: "[ ] 13 M_ME_NC_1 measured value, short floating point\n",
    },
    Listed {
        show: Show::Total,
        is_timed: false,
        unused_behind: "[ ] 20 M_PS_NA_1 packed single-point information with status change detection
[ ] 21 M_ME_ND_1 measured value, normalized, without quality
[ ] 2, 4, 6, 8, 10, 12, 14, 16 to 19: with CP24Time2a
",
    },
    Listed {
        show: Show::Single,
        is_timed: true,
        unused_behind: "",
    },
    Listed {
        show: Show::Double,
        is_timed: true,
        unused_behind: "[ ] 32 M_ST_TB_1 step position information, with CP56Time2a\n",
    },
    Listed {
        show: Show::Word,
        is_timed: true,
        unused_behind: "[ ] 34 M_ME_TD_1 measured value, normalized, with CP56Time2a\n",
    },
    Listed {
        show: Show::Scaled,
        is_timed: true,
        unused_behind: "[ ] 36 M_ME_TF_1 measured value, short floating point, with CP56Time2a\n",
    },
    Listed {
        show: Show::Total,
        is_timed: true,
        unused_behind: "[ ] 38 M_EP_TD_1, 39 M_EP_TE_1, 40 M_EP_TF_1 protection equipment, with CP56Time2a\n",
    },
];

const SYSTEM: &str = "\
[ ] 70 M_EI_NA_1 end of initialization
[x] 100 C_IC_NA_1 interrogation command: QOI 20 (station)
[x] 101 C_CI_NA_1 counter interrogation command: QCC 5 (request general, no freeze)
[x] 102 C_RD_NA_1 read command
[ ] 103 C_CS_NA_1 clock synchronization command
[ ] 104 C_TS_NA_1, 107 C_TS_TA_1 test command
[ ] 105 C_RP_NA_1 reset process command
[ ] 106 C_CD_NA_1 delay acquisition command
[ ] 110 to 113: parameters; 120 to 127: file transfer";

const FUNCTIONS: &str = "\
[ ] station initialization: remote initialization
[ ] cyclic data transmission
[x] read procedure
[x] spontaneous transmission
[ ] double transmission; background scan; acquisition of transmission delay; test procedure
[ ] parameter loading and activation; file transfer
[x] station interrogation: global
[ ] station interrogation: groups 1 to 16
[ ] integrated totals: modes A, B, C and D; freeze, reset; groups 1 to 4
[x] integrated totals: counter read, general request counter
[ ] clock synchronization";

const NETWORK: &str = "\
[x] connections of clients at a time: 8, each with its own data transfer, windows, timers and queue
[ ] redundancy groups; serial X.21 interface; other selections from RFC 2200
[ ] TLS (IEC 62351-3), secure authentication";

/// Writes the list with the values of settings.
pub(crate) fn write_sheet<F: Form>(settings: &Settings, form: &mut F) -> io::Result<()> {
    let (station, rows, controls) = (settings.station(), settings.rows(), settings.controls());
    write_device(form)?;
    write_addresses(settings.known_addresses(), form)?;
    write_point_types(rows, form)?;
    write_command_types(controls, form)?;
    write_system(form)?;
    write_causes(rows, controls, form)?;
    write_functions(station, form)?;
    write_command_transmission(controls, station.select_ms, form)?;
    write_limits(station, form)?;
    write_network(station, form)
}

/// Writes what the station is.
fn write_device<F: Form>(form: &mut F) -> io::Result<()> {
    form.chapter("Interoperability of the controlled station, IEC 60870-5-104, clause 9")?;
    form.note("A line with x is used with these settings, another isn't.")?;
    form.chapter("9.1 System or device")?;
    write_marks(DEVICE, form)?;
    form.chapter("9.2 Network configuration, 9.3 physical layer, 9.4 link layer")?;
    form.mark(false, "serial lines of IEC 60870-5-101: not applicable")
}

/// Writes by which common addresses the station is addressed, and how long addresses and causes are.
fn write_addresses<F: Form>(known: &[u16], form: &mut F) -> io::Result<()> {
    form.chapter("9.5 Application layer")?;
    form.mark(true, "transmission mode 1: least significant octet first")?;
    form.mark(false, "common address of ASDU: one octet")?;
    form.mark(
        true,
        format_args!("common address of ASDU: two octets:{}", Numbers(known)),
    )?;
    write_marks(ADDRESSES, form)
}

/// Numbers, with a space in front of each.
#[derive(Clone, Copy)]
struct Numbers<'a>(&'a [u16]);

impl<'a> fmt::Display for Numbers<'a> {
    fn fmt<W: fmt::Write>(&self, f: &mut fmt::Formatter<W>) -> fmt::Result {
        for number in self.0 {
            write!(f, " {number}")?;
        }
        Ok(())
    }
}

/// Writes the types of process information in monitor direction, of which those are used that a point has.
fn write_point_types<F: Form>(rows: &[Row], form: &mut F) -> io::Result<()> {
    form.chapter("Process information in monitor direction")?;
    for listed in &POINT_TYPES {
        write_type(listed, rows, form)?;
    }
    Ok(())
}

/// Writes a type of a way to show a point, and those behind it.
fn write_type<F: Form>(listed: &Listed, rows: &[Row], form: &mut F) -> io::Result<()> {
    let types = point_types(listed.show);
    let (name, about, tag) = if listed.is_timed {
        (types.timed, types.about, ", with CP56Time2a")
    } else {
        (types.untimed, types.about, "")
    };
    form.mark(
        is_shown(rows, listed.show),
        format_args!("{name} {about}{tag}"),
    )?;
    write_marks(listed.unused_behind, form)
}

/// Writes the types of system information and others.
fn write_system<F: Form>(form: &mut F) -> io::Result<()> {
    form.chapter("System information, parameters and file transfer")?;
    write_marks(SYSTEM, form)
}

/// Writes what the station does, and which clock its time tags have.
fn write_functions<F: Form>(station: &Station, form: &mut F) -> io::Result<()> {
    form.chapter("9.6 Basic application functions")?;
    write_marks(FUNCTIONS, form)?;
    let minutes = station.offset_minutes;
    match TimeZone::posix(station.rule_text.as_str()).map(|zone| zone.to_plain()) {
        Ok(jiff_tz::TimeZone::Posix(rule)) => write_rule(minutes, &rule, form),
        _ => form.mark(
            true,
            format_args!(
                "time tags CP56Time2a: {minutes} minutes ahead of UTC, the whole year round"
            ),
        ),
    }
}

/// Writes that time tags have summer time.
fn write_rule<F: Form>(minutes: i16, rule: &posix::TimeZone, form: &mut F) -> io::Result<()> {
    form.mark(
        true,
        format_args!(
            "time tags CP56Time2a: {minutes} minutes ahead of UTC, 60 more with SU by the rule {rule}"
        ),
    )
}

/// Writes the time-outs and the windows.
fn write_limits<F: Form>(station: &Station, form: &mut F) -> io::Result<()> {
    let (t1, t2, t3) = (station.t1_ms, station.t2_ms, station.t3_ms);
    let (k, w) = (station.k, station.w);
    form.chapter("Time-outs and windows")?;
    form.mark(false, "t0: clients open the connections")?;
    form.mark(true, format_args!("t1: {t1} ms (15 s in the standard)"))?;
    form.mark(true, format_args!("t2: {t2} ms (10 s in the standard)"))?;
    form.mark(true, format_args!("t3: {t3} ms (20 s in the standard)"))?;
    form.mark(true, format_args!("k: {k} (12 in the standard)"))?;
    form.mark(true, format_args!("w: {w} (8 in the standard)"))
}

/// Writes where the station listens, and what it keeps for each client.
fn write_network<F: Form>(station: &Station, form: &mut F) -> io::Result<()> {
    let listen = Plain(station.listen.as_str());
    let queue = station.queue;
    form.chapter("Ports, redundancy and networks")?;
    form.mark(
        true,
        format_args!("listening over TCP: {listen} (port 2404 in the standard)"),
    )?;
    form.mark(
        true,
        format_args!("spontaneous observations that may wait for each client: {queue}"),
    )?;
    write_marks(NETWORK, form)
}
