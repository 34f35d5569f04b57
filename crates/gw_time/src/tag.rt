//! Time tags and the stamps that they mean.
ghost use Rattle.std.specs.Prelude.{◌≡◌, ◌↔◌, Bool, is_some, IsSome, IfSome, Ok};
ghost use Rattle.gw_time.specs.Tag.{tag_meaning, plain};
ghost use Rattle.gw_model.specs.Clocks.{is_summer, shown_at};
ghost use Rattle.gw_time.specs.Rule.{clocks_of};
ghost use Rattle.gw_time.specs.Window.{HasTag};
ghost use Rattle.gw_time.specs.Spelling.{tag_showing, tag_of};

use crate::binary_time::{BinaryTime, civil_time, numbers_showing};
use crate::fault::TagFault;
use crate::shown::{instant_of, shown_at};
use crate::zone::Zone;
use gw_model::Stamp;

/// What a time tag, CP56Time2a, means at a station with these clocks (IEC 60870-5-101, 7.2.6.18). SU is looked at where
/// they have a rule for summer time, and then the civil time is read by it, whatever they show at the instant.
#[tactic(auto, unfolding(crate::specs::Tag::tag_meaning))]
pub fn from_tag(tag: &[u8; 7], zone: &Zone) -> Result<Stamp, TagFault>
    ensures { result ≡ tag_meaning (clocks_of zone.now) tag.now }
{
    let time = BinaryTime::read(tag);
    if !time.is_in_range() {
        return Err(TagFault::Field);
    }
    let Some(civil) = civil_time(time) else {
        return Err(TagFault::Date);
    };
    let instant = instant_of(zone, civil, time.summer);
    Ok(if time.invalid {
        Stamp::Doubtful(instant)
    } else {
        Stamp::At(instant)
    })
}

/// The time tag that means a stamp, if the stamp has a time of the civil years 2000 to 2099 at a station
/// with these clocks. SU is 1 where they show summer time, and bits that are not looked at are 0.
pub fn to_tag(stamp: Stamp, zone: &Zone) -> Option<[u8; 7]>
    ensures window { IsSome result ↔ HasTag (clocks_of zone.now) stamp }
    ensures meant { IfSome result (λ tag. tag_meaning (clocks_of zone.now) tag ≡ Ok stamp) }
    ensures plain { IfSome result (λ tag. plain (clocks_of zone.now) tag ≡ tag) }
    // Which octets they are.
    ensures exact { result ≡ tag_of (clocks_of zone.now) stamp }
{
    match stamp {
        Stamp::Untimed => None,
        Stamp::At(instant) => tag_at(instant, false, zone),
        Stamp::Doubtful(instant) => tag_at(instant, true, zone),
    }
}

/// Whether a stamp has a time tag at a station with these clocks.
pub fn has_tag(stamp: Stamp, zone: &Zone) -> bool
    ensures { result ≡ is_some (tag_of (clocks_of zone.now) stamp) }
{
    match stamp {
        Stamp::Untimed => false,
        Stamp::At(instant) | Stamp::Doubtful(instant) => is_shown(instant, zone),
    }
}

/// Whether an instant has a time tag.
fn is_shown(instant: u64, zone: &Zone) -> bool
    ensures { (invalid : Bool) → result ≡ is_some (tag_showing invalid (is_summer (clocks_of zone.now) instant)
        (shown_at (clocks_of zone.now) instant)) }
{
    shown_at(zone, instant).is_some()
}

/// The time tag of an instant.
fn tag_at(instant: u64, invalid: bool, zone: &Zone) -> Option<[u8; 7]>
    ensures { result ≡ tag_showing invalid (is_summer (clocks_of zone.now) instant)
        (shown_at (clocks_of zone.now) instant) }
{
    let (civil, summer) = shown_at(zone, instant)?;
    Some(numbers_showing(civil, invalid, summer).octets())
}
