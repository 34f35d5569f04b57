//! Fragments on the link to an outstation.
ghost use Rattle.std.specs.Prelude.{◌≡◌, ◌≤◌, ◌<◌, ◌+◌, ◌%◌, ◌||◌, is_err, length, take, ℕ, OnErr, OnOk};
ghost use Rattle.std.specs.Io.KnownBytes.{Appends};
ghost use Rattle.dnp_transport.specs.Cut.{segments_of};
ghost use Rattle.run_ends.specs.Framed.{framed, status_request};

use crate::ends::{Outgoing, Unwritten};
use dnp_link::{header_block, write_frame};
use dnp_transport::segments;
use std::marker::Model;

/// The control octet of what a master sends: DIR and PRM are set, and the function is UNCONFIRMED_USER_DATA (IEEE Std
/// 1815-2012, clause 9).
const USER_DATA: u8 = 0xC4;

/// The control octet by which a master asks for the status of the link: DIR and PRM are set, and the function is
/// REQUEST_LINK_STATUS (IEEE Std 1815-2012, clause 9).
const REQUEST_LINK_STATUS: u8 = 0xC9;

/// The most octets of a fragment that one segment carries.
pub const ONE_SEGMENT: usize = 249;

/// The way to an outstation: where octets go, the addresses of the link, and the next sequence number of the transport
/// function.
#[derive(Drop)]
pub struct Wire<W: Outgoing> {
    writer: W,
    own: u16,
    peer: u16,
    sequence: u8,
}

impl<W: Outgoing> Wire<W> {
    /// A link on which nothing was sent.
    pub fn new(writer: W, own: u16, peer: u16) -> Wire<W>
        ensures { result ≡ record { writer = writer; own = own; peer = peer; sequence = 0 } }
    {
        Wire {
            writer,
            own,
            peer,
            sequence: 0,
        }
    }

    /// Where octets go.
    pub fn into_writer(self) -> W
        ensures { result ≡ self.writer }
    {
        self.writer
    }

    /// Sends a fragment of at most 2,048 octets, a frame for each segment: one where it has at most 249.
    pub fn send(&mut self, fragment: &[u8]) -> Result<(), Unwritten>
        requires { length fragment.now ≤ 2048 }
        ensures ok { OnOk result (Appends (W.contents self.old.writer) (W.contents self.new.writer)
            (framed self.old.own self.old.peer (segments_of fragment.now (self.old.sequence % 64)))) }
        ensures front { OnErr result ((count : ℕ) × Appends (W.contents self.old.writer) (W.contents self.new.writer)
            (take count (framed self.old.own self.old.peer (segments_of fragment.now (self.old.sequence % 64))))) }
        ensures failed { W.has_failed self.new.writer ≡ (is_err result || W.has_failed self.old.writer) }
        ensures addresses { (self.new.own ≡ self.old.own) × (self.new.peer ≡ self.old.peer) }
        // The next sequence number is behind those of the segments; where one of them wasn't taken whole, behind those before it.
        ensures sequence { OnOk result (self.new.sequence % 64
            ≡ (self.old.sequence + length (segments_of fragment.now (self.old.sequence % 64))) % 64) }
        ensures kept { OnErr result ((taken : ℕ) × ((taken < length (segments_of fragment.now (self.old.sequence % 64)))
            × (self.new.sequence % 64 ≡ (self.old.sequence + taken) % 64))) }
    {
        'segments: for segment in segments(fragment, self.sequence % 64) {
            let mut frame = [0; 292];
            let end = write_frame(USER_DATA, self.peer, self.own, segment.octets(), &mut frame);
            if let Err(refused) = self.writer.hand(&frame[..end]) {
                return Err(refused);
            }
            self.sequence = (self.sequence % 64 + 1) % 64;
        }
        Ok(())
    }

    /// Asks for the status of the link, by a frame without user data.
    pub fn ask_status(&mut self) -> Result<(), Unwritten>
        ensures ok { OnOk result (Appends (W.contents self.old.writer) (W.contents self.new.writer)
            (status_request self.old.own self.old.peer)) }
        ensures front { OnErr result ((count : ℕ) × Appends (W.contents self.old.writer) (W.contents self.new.writer)
            (take count (status_request self.old.own self.old.peer))) }
        ensures failed { W.has_failed self.new.writer ≡ (is_err result || W.has_failed self.old.writer) }
        ensures addresses { (self.new.own ≡ self.old.own) × (self.new.peer ≡ self.old.peer) }
        ensures sequence { self.new.sequence ≡ self.old.sequence }
    {
        self.answer(&header_block(REQUEST_LINK_STATUS, self.peer, self.own, &[]))
    }

    /// Sends a frame of the link as it is.
    pub fn answer(&mut self, frame: &[u8]) -> Result<(), Unwritten>
        ensures ok { OnOk result (Appends (W.contents self.old.writer) (W.contents self.new.writer) frame.now) }
        ensures front { OnErr result ((count : ℕ) × Appends (W.contents self.old.writer) (W.contents self.new.writer)
            (take count frame.now)) }
        ensures failed { W.has_failed self.new.writer ≡ (is_err result || W.has_failed self.old.writer) }
        ensures addresses { (self.new.own ≡ self.old.own) × (self.new.peer ≡ self.old.peer) }
        ensures sequence { self.new.sequence ≡ self.old.sequence }
    {
        self.writer.hand(frame)
    }
}
