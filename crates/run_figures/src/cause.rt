//! Why a connection ended.

use crate::failure::Failure;
use iec_apci::{ApciFault, Why};
use std::fmt;

/// Why a connection ended.
#[derive(Clone, Copy)]
pub enum Cause {
    /// The core closed the client's connection.
    Closed(Why),
    /// The peer sends nothing more.
    EndOfInput,
    /// The peer was silent for too long.
    Silent {
        /// How long it may be.
        seconds: u64,
    },
    /// Octets came of the outstation, but for too long no fragment that was taken.
    Unanswered,
    /// An outstation that had answered the request for the status of its link doesn't any more.
    LinkUnanswered,
    /// The peer took an APDU or a frame too slowly.
    Slow {
        /// How long a write may take.
        milliseconds: u64,
    },
    /// Reading failed.
    NotRead(Failure),
    /// Writing failed.
    NotWritten(Failure),
    /// The client's octets are no APDUs.
    NotApdus(ApciFault),
    /// Memory ran out.
    Memory,
    /// The client gave way to a newer connection of its address.
    GaveWay,
    /// The gateway ends.
    GatewayEnds,
}

impl Cause {
    /// Whether the gateway ended the connection, and not for anything that its peer did or failed to do.
    pub fn is_own(self) -> bool {
        matches!(self, Cause::GaveWay | Cause::GatewayEnds)
    }

    /// Whether the gateway closed the connection, or lost it, in a word.
    pub(crate) fn in_a_word(self) -> &'static str {
        match self {
            Cause::Closed(_) | Cause::GaveWay | Cause::GatewayEnds => "closed",
            Cause::EndOfInput
            | Cause::Silent { .. }
            | Cause::Unanswered
            | Cause::LinkUnanswered
            | Cause::Slow { .. }
            | Cause::NotRead(_)
            | Cause::NotWritten(_)
            | Cause::NotApdus(_)
            | Cause::Memory => "lost",
        }
    }

    /// Whether another connection ended for the same reason. That the peer ended it shows, by chance, as one of several.
    pub(crate) fn is_like(self, other: Cause) -> bool {
        match (self, other) {
            (Cause::Closed(one), Cause::Closed(other)) => one == other,
            (Cause::NotApdus(one), Cause::NotApdus(other)) => one == other,
            (Cause::Silent { .. }, Cause::Silent { .. })
            | (Cause::Unanswered, Cause::Unanswered)
            | (Cause::LinkUnanswered, Cause::LinkUnanswered)
            | (Cause::Slow { .. }, Cause::Slow { .. })
            | (Cause::Memory, Cause::Memory)
            | (Cause::GaveWay, Cause::GaveWay)
            | (Cause::GatewayEnds, Cause::GatewayEnds) => true,
            _ if self.is_of_peer() => other.is_of_peer(),
            (Cause::NotRead(one), Cause::NotRead(other))
            | (Cause::NotWritten(one), Cause::NotWritten(other)) => one == other,
            _ => false,
        }
    }

    /// Whether the peer, or something between, ended the connection.
    fn is_of_peer(self) -> bool {
        match self {
            Cause::EndOfInput => true,
            Cause::NotRead(failure) | Cause::NotWritten(failure) => failure.is_of_peer(),
            _ => false,
        }
    }
}

impl fmt::Display for Cause {
    fn fmt<W: fmt::Write>(&self, f: &mut fmt::Formatter<W>) -> fmt::Result {
        let (ended, reason) = (self.in_a_word(), Reason(*self));
        write!(f, "{ended}: {reason}")
    }
}

/// Why a connection ended, in words.
#[derive(Clone, Copy)]
pub(crate) struct Reason(pub(crate) Cause);

impl fmt::Display for Reason {
    fn fmt<W: fmt::Write>(&self, f: &mut fmt::Formatter<W>) -> fmt::Result {
        let words = match self.0 {
            Cause::Closed(why) => words_of(why),
            Cause::EndOfInput => "end of input",
            Cause::Silent { seconds } => return write!(f, "silent for {seconds} s"),
            Cause::Unanswered => "octets came, but no answer",
            Cause::LinkUnanswered => "no answer to a link status",
            Cause::Slow { milliseconds } => {
                return write!(f, "a write took longer than {milliseconds} ms");
            }
            Cause::NotRead(failure) => {
                return write_failure(f, "nothing could be read: ", failure);
            }
            Cause::NotWritten(failure) => {
                return write_failure(f, "nothing could be written: ", failure);
            }
            Cause::NotApdus(fault) => words_of_fault(fault),
            Cause::Memory => "no memory",
            Cause::GaveWay => "gave way to a newer connection of its address",
            Cause::GatewayEnds => "the gateway ends",
        };
        f.write_str(words)
    }
}

/// Writes what failed: what wasn't done, unless the failure says of itself that the connection has ended.
fn write_failure<W: fmt::Write>(
    f: &mut fmt::Formatter<W>,
    undone: &str,
    failure: Failure,
) -> fmt::Result {
    let before = if failure.ends_connection() {
        ""
    } else {
        undone
    };
    write!(f, "{before}{failure}")
}

/// Why the core closed a client's connection.
fn words_of(why: Why) -> &'static str {
    match why {
        Why::Sequence => "a wrong sequence number",
        Why::NotStarted => "an I format before STARTDT",
        Why::Malformed => "an ASDU of a wrong length or number of objects",
        Why::Flooded => "more than 32 answers would wait",
        Why::Timer => "t1 expired",
    }
}

/// That no APDUs came, and what stands where one should begin.
fn words_of_fault(fault: ApciFault) -> &'static str {
    match fault {
        ApciFault::Start => "no APDUs came: a start octet other than 0x68",
        ApciFault::Length => "no APDUs came: a length outside 4 to 253",
        ApciFault::Control => "no APDUs came: a control field of no format",
    }
}
