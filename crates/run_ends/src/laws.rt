//! Laws of what is sent, and of the octets of APDUs.
ghost use Rattle.std.specs.Prelude.{◌≡◌, ◌%◌, ◌++◌, ℕ, List, Some, true, length, map};
ghost use Rattle.std.specs.List.{AllByRecursion};
ghost use Rattle.dnp_app.specs.declared.request.Request.{Request};
ghost use Rattle.dnp_app.specs.Requests.{octets_of};
ghost use Rattle.dnp_transport.specs.Cut.{segments_of};
ghost use Rattle.iec_apci.specs.Apdu.{ApduContent, Fits};
ghost use Rattle.iec_apci.specs.Buffer.{buffer_of};
ghost use Rattle.iec_apci.specs.Laws.{reading_with_all_first};
ghost use Rattle.iec_apci.specs.Stream.{reading};
ghost use Rattle.run_ends.specs.Framed.{framed};
ghost use Rattle.iec_apci.specs.Joined.{joined};
ghost use Rattle.run_ends.specs.Said.{SaysInTurn};
ghost use Rattle.run_ends.specs.Sent.{sent_octets, Took};
ghost use Rattle.run_ends.specs.declared.sent.Sent.{Sent};
ghost use Rattle.run_ends.specs.declared.sent.Sent.TheVariants as sents;

use crate::ends::Outgoing;
use crate::line::{Line, LineCourse};
use crate::sent::Sending;
use run_log::Head;

/// Nothing of a request is cut, nor of a confirmation: the frames that are sent carry all of its octets. A request has at most
/// 32, in an array of 32.
#[tactic(auto, using(crate::proofs::Whole::request_goes_whole))]
pub fn nothing_is_cut()
    ensures request { (own peer sequence : ℕ) (r : Request) → length r.octets ≡ 32
        → sent_octets own peer sequence (sents.Request r) ≡ framed own peer (segments_of (octets_of r) (sequence % 64)) }
    ensures confirmation { (own peer sequence : ℕ) (octets : List ℕ)
        → sent_octets own peer sequence (sents.Confirm octets) ≡ framed own peer (segments_of octets (sequence % 64)) }
{}

/// Of what was taken whole a writer took all octets.
#[tactic(auto, using(crate::proofs::Whole::whole_is_all))]
pub fn whole_is_to_the_last_octet()
    ensures { (own peer segments : ℕ) (before after : List ℕ) (what : Sent)
        → Took own peer segments (Some before) (Some after) (record { what = what; whole = true })
        → after ≡ before ++ sent_octets own peer segments what }
{}

/// Ends a line. As the link reads them, the octets that its writer took are frames and nothing else, whose SOURCE is the line's address
/// and whose DESTINATION is its peer's, where the replies that its link owed are; and the nth segment that they carry has the sequence
/// number n, counted from 0, modulo 64.
pub fn frames_of_a_line<W: Outgoing, N: LineCourse>(line: Line<W, N>) -> (W, Head<Sending, N>)
    ensures { SaysInTurn N.own N.peer N.first (W.contents result.0) result.1.log }
{
    line.into_parts()
}

/// The octets of APDUs, one after another, are read as just these APDUs, whatever follows them.
#[tactic(auto, using(crate::proofs::Spelled::apdus_read))]
pub fn apdus_are_read_back()
    ensures { (cs : List ApduContent) (behind : List ℕ) → AllByRecursion Fits cs
        → reading (joined (map buffer_of cs) ++ behind) ≡ reading_with_all_first cs (reading behind) }
{}
