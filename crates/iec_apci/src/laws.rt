//! What holds of every stream and every APDU, and a whole stream read through a feed.
ghost use Rattle.std.specs.Prelude.{◌≡◌, List, ℕ, [], ◌++◌, length, drop, map, Some, None, Ok, Err, IfOk, OnOk, ◌↔◌};
ghost use Rattle.std.specs.List.{AllByRecursion, flat_map};
ghost use Rattle.gw_model.specs.Octets.{AreOctets};
ghost use Rattle.iec_apci.specs.declared.fault.ApciFault.{ApciFault as ApciFault_lem};
ghost use Rattle.iec_apci.specs.Apdu.{ApduContent, apdu, Fits};
ghost use Rattle.iec_apci.specs.Stream.{answer_at_front, Open, Faulty, reading, reading_with_first};
ghost use Rattle.iec_apci.specs.ApduContent.{content};
ghost use Rattle.iec_apci.specs.Calls.{Call, ending_after_piece, reading_of_ending, answers, stream_answers};
ghost use Rattle.iec_apci.specs.Laws.{BeginsWith, Splits, joined_readings, reading_with_all_first, fault_of};

use crate::apdu::Apdu;
use crate::fault::ApciFault;
use crate::feed::ApduFeed;
use gw_model::Memory;
use std::alloc::Global;

/// A stream says first what its front shows, and then what the octets behind that say; a fault ends it.
pub fn apdu_by_apdu()
    ensures shown { (octets : List ℕ) (c : ApduContent) → answer_at_front octets ≡ Some (Ok c)
        → reading octets ≡ reading_with_first c (reading (drop (length (apdu c)) octets)) }
    ensures ends { (octets : List ℕ) (f : ApciFault_lem) → answer_at_front octets ≡ Some (Err f)
        → reading octets ≡ record { apdus = []; ending = Faulty f } }
    ensures waits { (octets : List ℕ) → answer_at_front octets ≡ None
        → reading octets ≡ record { apdus = []; ending = Open octets } }
{}

/// However a stream is cut, it says the same: what the first part says, and then what it leaves says with
/// the second part.
pub fn cut_anywhere()
    ensures { (a b : List ℕ)
        → reading (a ++ b) ≡ joined_readings (reading a) (reading_of_ending (ending_after_piece (reading a).ending b)) }
{}

/// An APDU is read back as what it carries, whatever follows it.
pub fn written_is_read()
    ensures { (c : ApduContent) (behind : List ℕ) → Fits c
        → reading (apdu c ++ behind) ≡ reading_with_first c (reading behind) }
{}

/// Octets show an APDU exactly where they begin with the one that carries this.
pub fn read_was_written()
    ensures { (octets : List ℕ) (c : ApduContent) → AreOctets octets → (answer_at_front octets ≡ Some (Ok c))
        ↔ BeginsWith octets c }
{}

/// Octets are the APDUs that are read of them, one after another, and a rest that shows nothing yet or a
/// fault.
pub fn written_again()
    ensures { (octets : List ℕ) → AreOctets octets → Splits octets (reading octets) }
{}

/// APDUs that are written one after another are read back one after another, whatever follows them.
pub fn all_written_are_read()
    ensures { (cs : List ApduContent) (behind : List ℕ) → AllByRecursion Fits cs
        → reading (flat_map apdu cs ++ behind) ≡ reading_with_all_first cs (reading behind) }
{}

/// Whenever a feed is given octets and asked, each answer is the next APDU of all octets so far, or how
/// these end: so it doesn't matter how they were cut into pieces.
pub fn any_calls()
    ensures { (calls : List Call) → answers (Open []) calls ≡ stream_answers [] 0 calls }
{}

/// The APDUs of a stream that comes in these pieces, and the fault that it ends with, through a feed.
pub fn apdus_of(alloc: Global, pieces: &[&[u8]]) -> Result<(Vec<Apdu>, Option<ApciFault>), Memory>
    ensures apdus { IfOk result (λ r. map content r.0.items
        ≡ (reading (flat_map (λ piece. piece.now) pieces.now)).apdus) }
    ensures fault { IfOk result (λ r. r.1 ≡ fault_of (reading (flat_map (λ piece. piece.now) pieces.now)).ending) }
{
    let mut feed = ApduFeed::new(alloc);
    let mut apdus = Vec::new(alloc);
    let mut fault = None;
    for piece in pieces {
        feed.feed(piece)?;
        fault = drain(&mut feed, &mut apdus)?;
    }
    Ok((apdus, fault))
}

/// Adds the APDUs that a feed shows, and answers the fault behind them.
fn drain(feed: &mut ApduFeed, apdus: &mut Vec<Apdu>) -> Result<Option<ApciFault>, Memory>
    ensures apdus { OnOk result (map content apdus.new.items
        ≡ map content apdus.old.items ++ (reading_of_ending feed.old).apdus) }
    ensures rest { OnOk result (feed.new ≡ (reading_of_ending feed.old).ending) }
    ensures fault { IfOk result (λ fault. fault ≡ fault_of (reading_of_ending feed.old).ending) }
{
    while let Some(answer) = feed.next() {
        match answer {
            Ok(apdu) => apdus.push(apdu)?,
            Err(fault) => return Ok(Some(fault)),
        }
    }
    Ok(None)
}
