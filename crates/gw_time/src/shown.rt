//! What the clocks of the station show.
ghost use Rattle.std.specs.Prelude.{◌≡◌, ◌↔◌, ◌≤◌, ◌*◌, ℕ, ℤ, pos};
ghost use Rattle.std.specs.Prelude.{◌≤ℤ◌, ◌-ℤ◌, ◌*ℤ◌, ◌&&◌, IsSome, IfSome};
ghost use Rattle.jiff_core.specs.DateTime.{civil_nanos};
ghost use Rattle.gw_model.specs.Clocks.{tells_summer, minutes_ahead, is_summer, shown_at};
ghost use Rattle.gw_time.specs.Rule.{clocks_of};
ghost use Rattle.gw_time.specs.Window.{IsFrom2000To2099};

use crate::rule::seconds_ahead;
use crate::zone::Zone;
use jiff::Timestamp;
use jiff::civil::DateTime;
use jiff::tz::Offset;

/// The last instant that clocks show at every offset, in milliseconds since 1970: it is in the year 9999.
const LAST_INSTANT: u64 = 253_402_207_200_999;

/// Whether the clocks show summer time at an instant.
#[tactic(auto, unfolding(crate::specs::Rule::clocks_of, gw_model::specs::Rule::IsRuleOrNone))]
fn is_summer(zone: &Zone, timestamp: Timestamp) -> bool
    ensures { (t : ℕ) → timestamp.nanosecond ≡ pos (t * 1_000_000) → result ≡ is_summer (clocks_of zone.now) t }
{
    match zone.rule {
        None => false,
        Some(rule) => {
            let seconds = seconds_ahead(rule, timestamp);
            seconds == 60 * (i32::from(zone.offset_minutes) + 60)
        }
    }
}

/// How far the clocks are ahead of UTC, in summer time or outside of it.
fn offset(zone: &Zone, summer: bool) -> Offset
    ensures { result.seconds ≡ pos 60 *ℤ minutes_ahead (clocks_of zone.now) summer }
{
    Offset::from_seconds(60 * i32::from(zone.minutes_ahead(summer))).unwrap()
}

/// What the clocks show at an instant, where that is in the years 2000 to 2099, and whether it is summer time.
pub(crate) fn shown_at(zone: &Zone, instant: u64) -> Option<(DateTime, bool)>
    ensures window { IsSome result ↔ IsFrom2000To2099 (clocks_of zone.now) instant }
    ensures value { IfSome result
        (λ shown. civil_nanos shown.0 ≡ shown_at (clocks_of zone.now) instant *ℤ pos 1_000_000) }
    ensures summer { IfSome result (λ shown. shown.1 ≡ is_summer (clocks_of zone.now) instant) }
    ensures low { IfSome result (λ shown. pos 2000 ≤ℤ shown.0.date.year) }
    ensures high { IfSome result (λ shown. shown.0.date.year ≤ℤ pos 2099) }
{
    let timestamp = timestamp_of(instant)?;
    let summer = is_summer(zone, timestamp);
    let civil = offset(zone, summer).to_datetime(timestamp);
    if civil.year() < 2000 || civil.year() > 2099 {
        return None;
    }
    Some((civil, summer))
}

/// The instant that a civil time of whole milliseconds means, one of summer time if SU says so and there is a rule.
pub(crate) fn instant_of(zone: &Zone, civil: DateTime, summer: bool) -> u64
    requires low { pos 2000 ≤ℤ civil.date.year }
    requires high { civil.date.year ≤ℤ pos 2099 }
    ensures { (z : ℤ) → civil_nanos civil ≡ z *ℤ pos 1_000_000
        → pos result ≡ z -ℤ (pos 60000 *ℤ minutes_ahead (clocks_of zone.now)
        (tells_summer (clocks_of zone.now) && summer)) }
{
    let offset = offset(zone, zone.is_of_summer(summer));
    let timestamp = offset.to_timestamp(civil).unwrap();
    timestamp.as_millisecond() as u64
}

/// An instant, given in milliseconds since 1970, if clocks show it at every offset.
fn timestamp_of(instant: u64) -> Option<Timestamp>
    ensures found { IsSome result ↔ (instant ≤ LAST_INSTANT) }
    ensures value { IfSome result (λ timestamp. timestamp.nanosecond ≡ pos (instant * 1_000_000)) }
{
    if instant > LAST_INSTANT {
        return None;
    }
    Timestamp::from_millisecond(instant as i64).ok()
}
