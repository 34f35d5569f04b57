//! What holds of every stamp and of every tag.
ghost use Rattle.std.specs.Prelude.{◌≡◌, ◌≢◌, ◌↔◌, ◌<◌, ℕ, ℤ, pos, ◌+ℤ◌, List};
ghost use Rattle.std.specs.Prelude.{Some, Ok, Err, IsOk, IsSome, IfSome, IfOk, IfErr};
ghost use Rattle.gw_model.specs.declared.point.Stamp.{Stamp as Stamp_lem};
ghost use Rattle.gw_model.specs.declared.point.Stamp.TheVariants.{Untimed, At, Doubtful};
ghost use Rattle.gw_model.specs.Clocks.{Clocks, always_ahead, shown_at};
ghost use Rattle.gw_model.specs.Fit.{IsIn21stCentury, IsInWindow};
ghost use Rattle.jiff_core.specs.Calendar.{IsBetween, IsCivilDate};
ghost use Rattle.gw_time.specs.Tag.{numbers_in, midnight, civil_milliseconds, is_of_summer, tag_meaning, plain};
ghost use Rattle.gw_time.specs.Rule.{clocks_of};
ghost use Rattle.gw_time.specs.Window.{HasTag, IsFrom2000To2099};
ghost use Rattle.gw_time.specs.Spelling.{tag_of};
ghost use Rattle.gw_time.specs.Laws.{AreStationClocks, IsByTheClocks, AreSevenOctets};

use crate::{TagFault, Zone, from_tag, to_tag};
use gw_model::Stamp;

/// A stamp has a tag where it has a time and is in the window that fit observations have.
pub fn window_of_fit_observations()
    ensures instants { (clocks : Clocks) (t : ℕ) → IsFrom2000To2099 clocks t ↔ IsIn21stCentury clocks t }
    ensures stamps { (clocks : Clocks) (stamp : Stamp_lem)
        → HasTag clocks stamp ↔ (IsInWindow clocks stamp × (stamp ≢ Untimed)) }
{}

/// The window is that of the civil years 2000 to 2099, by the civil date that the clocks show.
pub fn window_in_civil_years()
    ensures { (clocks : Clocks) (t : ℕ) (year : ℤ) (month day time : ℕ)
        → IsCivilDate year month day → time < 86400000
        → shown_at clocks t ≡ midnight year month day +ℤ pos time
        → (IsFrom2000To2099 clocks t ↔ IsBetween (pos 2000) (pos 2099) year) }
{}

/// At the instant that a tag means the clocks show its civil time, if its SU is what they show. Without a rule for summer
/// time it always is.
pub fn clocks_show_the_tag()
    ensures at { (clocks : Clocks) (octets : List ℕ) (t : ℕ)
        → AreStationClocks clocks → IsByTheClocks clocks octets → tag_meaning clocks octets ≡ Ok (At t)
        → shown_at clocks t ≡ civil_milliseconds (numbers_in octets) }
    ensures doubtful { (clocks : Clocks) (octets : List ℕ) (t : ℕ)
        → AreStationClocks clocks → IsByTheClocks clocks octets → tag_meaning clocks octets ≡ Ok (Doubtful t)
        → shown_at clocks t ≡ civil_milliseconds (numbers_in octets) }
    ensures without { (offset : ℤ) (octets : List ℕ) → IsByTheClocks (always_ahead offset) octets }
{}

/// What a tag means has a tag, if its SU is what the clocks show at that instant.
pub fn meanings_have_tags()
    ensures { (clocks : Clocks) (octets : List ℕ) (stamp : Stamp_lem)
        → AreStationClocks clocks → IsByTheClocks clocks octets → tag_meaning clocks octets ≡ Ok stamp
        → HasTag clocks stamp }
{}

/// Two tags that mean one stamp, both of summer time or both not, are the same, but for bits that are not looked at.
pub fn one_tag()
    ensures { (clocks : Clocks) (a b : List ℕ) (stamp : Stamp_lem)
        → AreStationClocks clocks → AreSevenOctets a → AreSevenOctets b
        → tag_meaning clocks a ≡ Ok stamp → tag_meaning clocks b ≡ Ok stamp
        → is_of_summer clocks (numbers_in a) ≡ is_of_summer clocks (numbers_in b) → plain clocks a ≡ plain clocks b }
{}

/// A stamp that has a tag, written as one and read again.
pub fn read_again(stamp: Stamp, zone: &Zone) -> Option<Result<Stamp, TagFault>>
    ensures window { IsSome result ↔ HasTag (clocks_of zone.now) stamp }
    ensures same { IfSome result (λ read. read ≡ Ok stamp) }
{
    let tag = to_tag(stamp, zone)?;
    Some(from_tag(&tag, zone))
}

/// A tag that means a stamp, read and written again: the same, but for bits that are not looked at, if its SU is what the
/// clocks show.
pub fn written_again(tag: &[u8; 7], zone: &Zone) -> Result<Option<[u8; 7]>, TagFault>
    ensures meant { IsOk result ↔ IsOk (tag_meaning (clocks_of zone.now) tag.now) }
    ensures same { IsByTheClocks (clocks_of zone.now) tag.now
        → IfOk result (λ written. written ≡ Some (plain (clocks_of zone.now) tag.now)) }
    ensures fault { IfErr result (λ fault. tag_meaning (clocks_of zone.now) tag.now ≡ Err fault) }
{
    let stamp = from_tag(tag, zone)?;
    Ok(to_tag(stamp, zone))
}

/// Which stamps have a tag, and what it means.
pub fn tags_of_stamps()
    ensures window { (clocks : Clocks) (stamp : Stamp_lem) → IsSome (tag_of clocks stamp) ↔ HasTag clocks stamp }
    ensures meant { (clocks : Clocks) (stamp : Stamp_lem)
        → IfSome (tag_of clocks stamp) (λ tag. tag_meaning clocks tag ≡ Ok stamp) }
    ensures seven { (clocks : Clocks) (stamp : Stamp_lem) → IfSome (tag_of clocks stamp) (λ tag. AreSevenOctets tag) }
    ensures plain { (clocks : Clocks) (stamp : Stamp_lem)
        → IfSome (tag_of clocks stamp) (λ tag. plain clocks tag ≡ tag) }
    ensures by_the_clocks { (clocks : Clocks) (stamp : Stamp_lem)
        → IfSome (tag_of clocks stamp) (λ tag. IsByTheClocks clocks tag) }
{}
