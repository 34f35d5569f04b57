//! What is sent on a line.
ghost use Rattle.std.specs.Prelude.{◌≡◌, ◌+◌, ◌%◌, ◌||◌, is_err, is_ok, if◌then◌else◌};
ghost use Rattle.run_ends.specs.Sent.{segments_in, Took};

use crate::ends::{Outgoing, Unwritten};
use crate::wire::{ONE_SEGMENT, Wire};
use dnp_app::Request;
use run_log::Opened;

/// What is sent on a line to an outstation.
#[derive(Clone, Copy)]
pub enum Sent {
    /// A frame that the link owes.
    Reply([u8; 10]),
    /// The request for the status of the link.
    Status,
    /// A confirmation.
    Confirm([u8; 2]),
    /// A request.
    Request(Request),
}

/// Something that was sent, and whether the whole of it was taken.
#[derive(Clone, Copy)]
pub struct Sending {
    pub what: Sent,
    pub whole: bool,
}

/// Sends it.
pub fn put<W: Outgoing>(wire: &mut Wire<W>, what: &Sent) -> Result<(), Unwritten>
    ensures took { Took wire.old.own wire.old.peer wire.old.sequence (W.contents wire.old.writer)
        (W.contents wire.new.writer) record { what = what.now; whole = is_ok result } }
    // The sequence number is behind those of its segments, where all were taken.
    ensures sequence { wire.new.sequence % 64
        ≡ (wire.old.sequence + (if is_ok result then segments_in what.now else 0)) % 64 }
    ensures failed { W.has_failed wire.new.writer ≡ (is_err result || W.has_failed wire.old.writer) }
    ensures addresses { (wire.new.own ≡ wire.old.own) × (wire.new.peer ≡ wire.old.peer) }
{
    match what {
        Sent::Reply(frame) => wire.answer(frame),
        Sent::Status => wire.ask_status(),
        Sent::Confirm(octets) => wire.send(octets),
        Sent::Request(request) => {
            let octets = request.as_slice();
            // A request is shorter than any segment.
            wire.send(&octets[..octets.len().min(ONE_SEGMENT)])
        }
    }
}

/// A history in which nothing was sent yet; none where somebody added to it before it was opened, which nobody can.
pub fn open_line() -> Option<Opened<Sending>> {
    Opened::new()
}
