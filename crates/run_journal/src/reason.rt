//! Why commands are confirmed negatively, and orders end, in words.

use dnp_app::Operation;
use dnp_master::Fate;
use gw_control::Refusal;
use iec_command::{Action, Command};
use std::fmt;

/// Why a client's command for a control is confirmed negatively.
#[derive(Clone, Copy)]
pub enum Reason {
    /// It was refused.
    Refused(Refusal),
    /// It was accepted as an order, which ended so.
    Ended(Fate),
}

/// What became of an order, in words.
#[derive(Clone, Copy)]
pub(crate) struct FateWords(pub Fate);

impl fmt::Display for FateWords {
    fn fmt<W: fmt::Write>(&self, f: &mut fmt::Formatter<W>) -> fmt::Result {
        match self.0 {
            Fate::Done => f.write_str("done"),
            Fate::Refused(operation, status) => write_status(f, operation, status),
            Fate::Otherwise(operation) => write_otherwise(f, operation),
            Fate::Unanswered(operation) => write_unanswered(f, operation),
            Fate::Lost => f.write_str("the outstation was lost"),
            Fate::LetGo => f.write_str("its session ended before it was given"),
        }
    }
}

/// Writes with which control status an outstation gave a command back.
fn write_status<W: fmt::Write>(
    f: &mut fmt::Formatter<W>,
    operation: Operation,
    status: u8,
) -> fmt::Result {
    let request = name_of(operation);
    write!(f, "the outstation answered {request} with status {status}")?;
    match status_name(status) {
        Some(name) => write!(f, " ({name})"),
        None => Ok(()),
    }
}

/// Writes that an outstation answered without giving the command back.
fn write_otherwise<W: fmt::Write>(f: &mut fmt::Formatter<W>, operation: Operation) -> fmt::Result {
    let request = name_of(operation);
    write!(f, "the outstation answered {request} otherwise")
}

/// Writes that no answer came.
fn write_unanswered<W: fmt::Write>(f: &mut fmt::Formatter<W>, operation: Operation) -> fmt::Result {
    let request = name_of(operation);
    write!(f, "no answer to {request} in time")
}

/// The function of a request (IEEE Std 1815-2012, 4.4).
fn name_of(operation: Operation) -> &'static str {
    match operation {
        Operation::Select => "SELECT",
        Operation::Operate => "OPERATE",
        Operation::DirectOperate => "DIRECT_OPERATE",
    }
}

/// A control status by its name, if it has one (IEEE Std 1815-2012, the control status codes of its object library).
fn status_name(status: u8) -> Option<&'static str> {
    Some(match status {
        0 => "success",
        1 => "timeout",
        2 => "no select",
        3 => "format error",
        4 => "not supported",
        5 => "already active",
        6 => "hardware error",
        7 => "local",
        8 => "too many objects",
        9 => "not authorized",
        10 => "automation inhibit",
        11 => "processing limited",
        12 => "out of range",
        13 => "downstream local",
        14 => "already complete",
        15 => "blocked",
        16 => "canceled",
        17 => "blocked by another master",
        18 => "downstream failure",
        126 => "non participating",
        127 => "undefined",
        _ => return None,
    })
}

/// Why a command is confirmed negatively, in words.
#[derive(Clone, Copy)]
pub(crate) struct ReasonWords<'a>(pub Reason, pub &'a Command);

impl<'a> fmt::Display for ReasonWords<'a> {
    fn fmt<W: fmt::Write>(&self, f: &mut fmt::Formatter<W>) -> fmt::Result {
        let ReasonWords(reason, command) = *self;
        match reason {
            Reason::Refused(Refusal::Qualifier) => write_qualifier(f, &command.action),
            Reason::Refused(refusal) => f.write_str(words_of(refusal)),
            Reason::Ended(fate) => fmt::Display::fmt(&FateWords(fate), f),
        }
    }
}

/// Why a command is refused, in words.
fn words_of(refusal: Refusal) -> &'static str {
    match refusal {
        Refusal::NoState => "to no state",
        Refusal::Qualifier => "its qualifier is not known",
        Refusal::OutOfRange => "the value leaves 16 bits",
        Refusal::OutstationDown => "the outstation is down",
        Refusal::SelectedByAnother => "selected by another",
        Refusal::NotSelected => "not selected",
        Refusal::UnlikeSelect => "unlike its select",
        Refusal::NoPlace => "16 orders wait",
    }
}

/// Writes which qualifier of a command isn't known.
fn write_qualifier<W: fmt::Write>(f: &mut fmt::Formatter<W>, action: &Action) -> fmt::Result {
    let (name, qualifier) = match action {
        Action::Single(single) => ("QU", single.qualifier),
        Action::Double(double) => ("QU", double.qualifier),
        Action::Setpoint(setpoint) => ("QL", setpoint.qualifier),
        Action::Interrogation { .. } | Action::CounterInterrogation { .. } | Action::Read =>
            return f.write_str(words_of(Refusal::Qualifier)),
    };
    write!(f, "{name} {qualifier} is not known")
}
