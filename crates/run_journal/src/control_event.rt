//! What happens with commands for controls, and with orders.

use crate::event::Priority;
use crate::reason::{FateWords, Reason};
use dnp_app::Request;
use dnp_master::Fate;
use iec_command::Command;
use iec_command::causes::UNKNOWN_TYPE;
use std::fmt;

/// What happens with a command of a client for a control.
#[derive(Clone, Copy)]
pub enum CommandEvent {
    /// It came, and was accepted as the order of this number, if it was.
    Came { order: Option<u64> },
    /// It goes back to the client; where it is confirmed negatively, for this reason, if it is known.
    Told { reason: Option<Reason> },
}

/// What happens with an order to an outstation.
#[derive(Clone, Copy)]
pub enum OrderEvent {
    /// A request of it goes to the outstation.
    Given(Request),
    /// It ended so.
    Ended(Fate),
}

impl CommandEvent {
    /// How much it matters, of this command.
    pub(crate) fn priority(self, command: &Command) -> Priority {
        match self {
            CommandEvent::Told { .. } if command.negative || command.cause >= UNKNOWN_TYPE => {
                Priority::Warning
            }
            CommandEvent::Came { .. } | CommandEvent::Told { .. } => Priority::Information,
        }
    }
}

impl OrderEvent {
    /// How much it matters.
    pub(crate) fn priority(self) -> Priority {
        match self {
            OrderEvent::Given(_) | OrderEvent::Ended(Fate::Done) => Priority::Information,
            OrderEvent::Ended(_) => Priority::Warning,
        }
    }
}

/// Octets in hexadecimal, two digits for each, with a space between them.
#[derive(Clone, Copy)]
struct Spaced<'a>(&'a [u8]);

impl<'a> fmt::Display for Spaced<'a> {
    fn fmt<W: fmt::Write>(&self, f: &mut fmt::Formatter<W>) -> fmt::Result {
        let mut gap = "";
        for octet in self.0 {
            write!(f, "{gap}{octet:02X}")?;
            gap = " ";
        }
        Ok(())
    }
}

impl fmt::Display for OrderEvent {
    fn fmt<W: fmt::Write>(&self, f: &mut fmt::Formatter<W>) -> fmt::Result {
        match self {
            OrderEvent::Given(request) => write!(f, "given: {}", Spaced(request.as_slice())),
            OrderEvent::Ended(fate) => write_end(f, *fate),
        }
    }
}

/// Writes how an order ended.
fn write_end<W: fmt::Write>(f: &mut fmt::Formatter<W>, fate: Fate) -> fmt::Result {
    let words = FateWords(fate);
    match fate {
        Fate::Done => write!(f, "{words}"),
        Fate::LetGo => write!(f, "let go: {words}"),
        Fate::Refused(..) | Fate::Otherwise(_) | Fate::Unanswered(_) | Fate::Lost => {
            write!(f, "failed: {words}")
        }
    }
}
