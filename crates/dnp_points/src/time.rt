//! The common time of occurrence (group 51; IEEE Std 1815, Annex A).
ghost use Rattle.std.specs.Prelude.{◌≡◌};
ghost use Rattle.dnp_objects.specs.Library.{object_of};
ghost use Rattle.dnp_points.specs.Values.{IsClock};
ghost use Rattle.dnp_points.specs.Meaning.{IsWithin, last_or, times_of};

use dnp_objects::{Header, number};
use gw_model::Stamp;

/// The group of the common time of occurrence.
const COMMON_TIME: u8 = 51;
/// How many octets a common time has.
const OCTETS: usize = 6;

/// The common time after a header of a part: that of its last object, where its objects are common times.
#[tactic(auto, using(dnp_objects::proofs::NumberLaws::in_octets))]
pub fn common_after(common: Stamp, header: &Header, part: &[u8]) -> Stamp
    requires within { IsWithin part.now header.now }
    requires clock { IsClock common }
    ensures last { let variation = object_of header.now.group header.now.variation in
        result ≡ last_or common (times_of part.now variation header.now) }
    ensures clock { IsClock result }
{
    if header.group != COMMON_TIME || header.count == 0 {
        return common;
    }
    let last = header.start + OCTETS * (header.count as usize - 1);
    let milliseconds = number(&part[last..last + OCTETS]);
    if header.variation == 1 {
        Stamp::At(milliseconds)
    } else {
        Stamp::Doubtful(milliseconds)
    }
}
