//! The two ends of a connection to a peer, as workers see them.
ghost use Rattle.std.specs.Prelude.{◌≡◌, ◌≤◌, ◌||◌, ℕ, Bool, List, Option, is_err, length, take, OnErr, OnOk};
ghost use Rattle.std.specs.Io.KnownBytes.{Appends};
ghost use Rattle.run_ends.specs.Ends.{is_fault, reading_end, Gives, IsWithin};

use crate::worker_end::WorkerEnd;
use thiserror::Error;

/// What came from a peer.
#[derive(Clone, Copy)]
pub enum Arrival {
    /// So many octets, at the front of the buffer.
    Octets(usize),
    /// Nothing yet, so that the reader may look whether it is still to read.
    Later,
    /// Nothing more will come.
    End,
    /// Reading failed.
    Fault,
}

impl Arrival {
    /// Whether reading failed.
    pub fn is_fault(&self) -> bool
        ensures { result ≡ is_fault self.now }
    {
        matches!(self, Arrival::Fault)
    }

    /// How a reader ends by it, if it does.
    pub fn end(&self) -> Option<WorkerEnd>
        ensures { result ≡ reading_end self.now }
    {
        match self {
            Arrival::Octets(_) | Arrival::Later => None,
            Arrival::End => Some(WorkerEnd::EndOfInput),
            Arrival::Fault => Some(WorkerEnd::ReadFault),
        }
    }
}

/// Where octets come from.
pub trait Incoming {
    /// The octets that it gave so far, where they are known.
    ghost given: { Self → Option (List ℕ) };

    /// Whether a read has failed.
    ghost has_failed: { Self → Bool };

    /// Waits for octets of the peer. An interrupted wait goes on.
    fn receive(&mut self, buffer: &mut [u8]) -> Arrival
        ensures within { IsWithin result (length buffer.new) }
        ensures given { Gives result (given self.old) (given self.new) buffer.new }
        // This read, or one before.
        ensures failed { has_failed self.new ≡ (is_fault result || has_failed self.old) };
}

/// The octets weren't all taken, or none was and none will be.
#[derive(Clone, Copy, Debug, Error)]
#[error("not all octets were taken")]
pub struct Unwritten;

/// Where octets go to.
pub trait Outgoing {
    /// The octets that it took so far, where they are known.
    ghost contents: { Self → Option (List ℕ) };

    /// Whether a write has failed.
    ghost has_failed: { Self → Bool };

    /// Hands octets over, all of them at `Ok`, the front of them at `Err`. An interrupted write goes on.
    fn hand(&mut self, octets: &[u8]) -> Result<(), Unwritten>
        ensures ok { OnOk result (Appends (contents self.old) (contents self.new) octets.now) }
        ensures front { OnErr result ((n : ℕ) × Appends (contents self.old) (contents self.new) (take n octets.now)) }
        // This write, or one before.
        ensures failed { has_failed self.new ≡ (is_err result || has_failed self.old) };
}
