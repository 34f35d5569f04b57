//! Commands for controls, in words.

use iec_command::causes::{
    ACTIVATION, ACTIVATION_CONFIRMATION, ACTIVATION_TERMINATION, DEACTIVATION,
    DEACTIVATION_CONFIRMATION, UNKNOWN_CAUSE, UNKNOWN_COMMON_ADDRESS, UNKNOWN_OBJECT_ADDRESS,
    UNKNOWN_TYPE,
};
use iec_command::{Action, Command, DoubleCommand, SetpointCommand, SingleCommand};
use std::fmt;

/// A command for a control in words: what it asks, of which control, and who does.
#[derive(Clone, Copy)]
struct ControlWords<'a>(&'a Command);

/// A command for a control, as it came from a client.
#[derive(Clone, Copy)]
pub(crate) struct AskedWords<'a>(pub &'a Command);

/// A command for a control, as it went back to a client.
#[derive(Clone, Copy)]
pub(crate) struct ToldWords<'a>(pub &'a Command);

impl<'a> fmt::Display for ControlWords<'a> {
    fn fmt<W: fmt::Write>(&self, f: &mut fmt::Formatter<W>) -> fmt::Result {
        let ControlWords(command) = *self;
        let (originator, station) = (command.originator, command.common_address);
        write_action(f, command.address, &command.action)?;
        write!(f, ", originator {originator}, station {station}")
    }
}

/// Writes what is asked of the control at an address.
fn write_action<W: fmt::Write>(
    f: &mut fmt::Formatter<W>,
    address: u32,
    action: &Action,
) -> fmt::Result {
    match action {
        Action::Single(single) => write_single(f, address, single),
        Action::Double(double) => write_double(f, address, double),
        Action::Setpoint(setpoint) => write_setpoint(f, address, setpoint),
        Action::Interrogation { .. } | Action::CounterInterrogation { .. } | Action::Read => Ok(()),
    }
}

/// Writes a single command: the state, the qualifier QU, and S/E.
fn write_single<W: fmt::Write>(
    f: &mut fmt::Formatter<W>,
    address: u32,
    single: &SingleCommand,
) -> fmt::Result {
    let (qualifier, phase) = (single.qualifier, phase_of(single.select));
    let state = if single.on { "on" } else { "off" };
    write!(
        f,
        "single command {address} {state}, QU {qualifier}, {phase}"
    )
}

/// Writes a double command, likewise.
fn write_double<W: fmt::Write>(
    f: &mut fmt::Formatter<W>,
    address: u32,
    double: &DoubleCommand,
) -> fmt::Result {
    let (qualifier, phase) = (double.qualifier, phase_of(double.select));
    let state = double_state(double.state);
    write!(
        f,
        "double command {address} {state}, QU {qualifier}, {phase}"
    )
}

/// Writes a set point: the value, the qualifier QL, and S/E.
fn write_setpoint<W: fmt::Write>(
    f: &mut fmt::Formatter<W>,
    address: u32,
    setpoint: &SetpointCommand,
) -> fmt::Result {
    let (qualifier, phase) = (setpoint.qualifier, phase_of(setpoint.select));
    let value = setpoint.value;
    write!(f, "set point {address} {value}, QL {qualifier}, {phase}")
}

/// S/E (IEC 60870-5-101, 7.2.6.26 and 7.2.6.39).
fn phase_of(select: bool) -> &'static str {
    if select { "select" } else { "execute" }
}

/// The state of a double command (IEC 60870-5-101, 7.2.6.16).
fn double_state(state: u8) -> &'static str {
    match state {
        1 => "off",
        2 => "on",
        _ => "to no state",
    }
}

impl<'a> fmt::Display for AskedWords<'a> {
    fn fmt<W: fmt::Write>(&self, f: &mut fmt::Formatter<W>) -> fmt::Result {
        let AskedWords(command) = *self;
        let cause = AskedCause(command.cause);
        let words = ControlWords(command);
        let negative = if command.negative { ", with P/N" } else { "" };
        let test = if command.test { ", a test" } else { "" };
        write!(f, "{cause}{words}{negative}{test}")
    }
}

/// The cause of transmission of a command that came, unless it is activation.
#[derive(Clone, Copy)]
struct AskedCause(u8);

impl fmt::Display for AskedCause {
    fn fmt<W: fmt::Write>(&self, f: &mut fmt::Formatter<W>) -> fmt::Result {
        match self.0 {
            ACTIVATION => Ok(()),
            DEACTIVATION => f.write_str("deactivation of "),
            cause => write!(f, "cause {cause} of "),
        }
    }
}

impl<'a> fmt::Display for ToldWords<'a> {
    fn fmt<W: fmt::Write>(&self, f: &mut fmt::Formatter<W>) -> fmt::Result {
        let ToldWords(command) = *self;
        let words = ControlWords(command);
        let answer = Answer(command.cause);
        let negative = if command.negative { ", negative" } else { "" };
        write!(f, "{words}: {answer}{negative}")
    }
}

/// What a command is answered by its cause of transmission.
#[derive(Clone, Copy)]
struct Answer(u8);

impl fmt::Display for Answer {
    fn fmt<W: fmt::Write>(&self, f: &mut fmt::Formatter<W>) -> fmt::Result {
        let words = match self.0 {
            ACTIVATION_CONFIRMATION => "confirmed",
            DEACTIVATION_CONFIRMATION => "deactivation confirmed",
            ACTIVATION_TERMINATION => "terminated",
            UNKNOWN_TYPE => "unknown type",
            UNKNOWN_CAUSE => "unknown cause",
            UNKNOWN_COMMON_ADDRESS => "unknown common address",
            UNKNOWN_OBJECT_ADDRESS => "unknown object address",
            cause => return write!(f, "cause {cause}"),
        };
        f.write_str(words)
    }
}
