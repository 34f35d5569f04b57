//! A stream of octets that comes in pieces.
ghost use Rattle.std.specs.Prelude.{◌≡◌, ◌<◌, [], IsOk, OnOk, OnErr, IfNone, IfSome, IfOk};
ghost use Rattle.iec_apci.specs.Stream.{Open};
ghost use Rattle.iec_apci.specs.Calls.{ending_after_piece, answer, ending_after_answer, IsFaulty, IsShort};
ghost use Rattle.iec_apci.specs.ApduContent.{content_if, IsNumbered, IsPadded};

use crate::apdu::Apdu;
use crate::fault::ApciFault;
use crate::reading::{apdu_at, size_of};
use gw_model::{Memory, OctetQueue};
use std::alloc::Global;
use std::marker::Model;

/// Finds the APDUs in a stream of octets (IEC 60870-5-104, clause 5). A contract sees the octets that were
/// fed and that no answer has used up yet, or the fault that was met.
#[derive(Drop)]
pub struct ApduFeed {
    octets: OctetQueue,
    /// The fault that was met.
    fault: Option<ApciFault>,
}

impl Model for ApduFeed {
    ghost use Rattle.iec_apci.specs.Stream.{Ending};

    ghost Value = { Ending };

    ghost use Rattle.iec_apci.specs.Shown.{ending_shown, IsSound};

    ghost view = { ending_shown };

    ghost invariant = { IsSound };
}

impl ApduFeed {
    /// A feed that was given nothing yet. It keeps the allocator.
    pub fn new(alloc: Global) -> ApduFeed
        ensures { result ≡ Open [] }
    {
        ApduFeed {
            octets: OctetQueue::new(alloc),
            fault: None,
        }
    }

    /// Takes the next octets of the stream. After a fault it changes nothing.
    pub fn feed(&mut self, piece: &[u8]) -> Result<(), Memory>
        ensures ok { OnOk result (self.new ≡ ending_after_piece self.old piece.now) }
        ensures err { OnErr result (self.new ≡ self.old) }

        // After a fault no memory is asked for, and nothing needs none.
        ensures faulty { IsFaulty self.old → IsOk result }
        ensures nothing { piece.now ≡ [] → IsOk result }
    {
        if self.fault.is_some() {
            return Ok(());
        }
        self.octets.add(piece)
    }

    /// The next APDU, if the octets so far show one, or the fault, from then on for ever. It takes no memory.
    pub fn next(&mut self) -> Option<Result<Apdu, ApciFault>>
        ensures answer { content_if result ≡ answer self.old }
        ensures rest { self.new ≡ ending_after_answer self.old }

        // What is given may be written, and its padding is zero.
        ensures numbered { IfSome result (λ r. IfOk r IsNumbered) }
        ensures padded { IfSome result (λ r. IfOk r IsPadded) }

        // Less than the longest APDU is held back where there is none.
        ensures held { IfNone result (IsShort self.new) }
    {
        if let Some(fault) = self.fault {
            return Some(Err(fault));
        }
        let answer = apdu_at(self.octets.rest())?;
        match &answer {
            Ok(apdu) => self.octets.use_up(size_of(apdu)),
            Err(fault) => {
                self.fault = Some(*fault);
                self.octets.clear();
            }
        }
        Some(answer)
    }
}
