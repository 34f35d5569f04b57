//! How workers end.

use iec_apci::{ApciFault, Why};

/// Why a worker ended.
#[derive(Clone, Copy, PartialEq)]
pub enum WorkerEnd {
    /// The core closed the client's connection.
    Closed(Why),
    /// The peer sends nothing more.
    EndOfInput,
    /// Reading failed.
    ReadFault,
    /// Octets came, but nothing that answers for too long.
    Unanswered,
    /// Nothing came in time behind a request for the status of the link, which was answered before.
    LinkUnanswered,
    /// Writing failed.
    WriteFault,
    /// The peer's octets are no APDUs.
    Malformed(ApciFault),
    /// Memory ran out.
    Memory,
    /// It was asked to end, or its peer isn't up any more, or no further step can be counted.
    Stopping,
}
