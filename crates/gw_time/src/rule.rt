//! The offset of clocks by a rule for summer time, which jiff tells.
ghost use Rattle.std.specs.Prelude.{◌≡◌, ℤ};
ghost use Rattle.jiff_core.specs.declared.Offset.{Offset as OffsetOf};
ghost use Rattle.jiff_tz.specs.PosixRule.{rule_nanos, utc_window, offset_at};
ghost use Rattle.jiff_tz.specs.Zone as zones;
ghost use Rattle.jiff.specs.ZoneView.{plain_zone};
ghost use Rattle.gw_model.specs.Rule.{IsRuleMoment, IsSecondsAhead, IsDaylight, IsClockRule};
ghost use Rattle.gw_time.specs.Rule.{posix_day, moment_in, daylight_window, seconds_ahead};

use gw_model::{ClockRule, Daylight, RuleDay, RuleMoment};
use jiff::Timestamp;
use jiff::tz::{Offset, TimeZone};
use jiff_tz::{Abbreviation, posix};

/// How many seconds clocks are ahead of UTC by a rule.
pub(crate) fn seconds_ahead(rule: ClockRule, timestamp: Timestamp) -> i32
    requires { IsClockRule rule }
    ensures { result ≡ seconds_ahead rule timestamp.nanosecond }
{
    time_zone_of(rule).to_offset(timestamp).seconds()
}

/// The time zone whose clocks are set by a rule.
#[tactic(auto, unfolding(jiff_tz::specs::Zone::offset_at))]
fn time_zone_of(rule: ClockRule) -> TimeZone<'static>
    requires { IsClockRule rule }
    ensures { (moment : ℤ) → zones.offset_at (plain_zone result) moment ≡ seconds_ahead rule moment }
{
    TimeZone::from_plain(jiff_tz::TimeZone::Posix(posix_rule(rule)))
}

/// The rule with a name for each of its times.
fn posix_rule(rule: ClockRule) -> posix::TimeZone
    requires { IsClockRule rule }
    ensures { (moment : ℤ) → (offset_at result moment).seconds ≡ seconds_ahead rule moment }
{
    let std_abbrev = Abbreviation::utc();
    let std_offset = offset_of(rule.seconds).to_plain();
    match rule.daylight {
        None => posix::TimeZone {
            std_abbrev,
            std_offset,
            dst: None,
        },
        Some(daylight) => posix::TimeZone {
            std_abbrev,
            std_offset,
            dst: Some(posix_daylight(daylight)),
        },
    }
}

/// Daylight saving time with a name.
fn posix_daylight(daylight: Daylight) -> posix::Dst
    requires { IsDaylight daylight }
    ensures seconds { result.offset.seconds ≡ daylight.seconds }
    ensures window { (year : ℤ) (standard : OffsetOf)
        → utc_window result year standard ≡ daylight_window daylight year standard.seconds }
{
    posix::Dst {
        abbrev: Abbreviation::utc(),
        offset: offset_of(daylight.seconds).to_plain(),
        rule: posix::Rule {
            start: posix_moment(daylight.begins),
            end: posix_moment(daylight.ends),
        },
    }
}

fn posix_moment(moment: RuleMoment) -> posix::DayTime
    requires { IsRuleMoment moment }
    ensures { (year seconds : ℤ) → rule_nanos year result seconds ≡ moment_in year moment seconds }
{
    posix::DayTime {
        date: posix_day(moment.day),
        time: moment.seconds,
    }
}

fn posix_day(day: RuleDay) -> posix::Day
    ensures { result ≡ posix_day day }
{
    match day {
        RuleDay::JulianOne(number) => posix::Day::JulianOne(number),
        RuleDay::JulianZero(number) => posix::Day::JulianZero(number),
        RuleDay::WeekdayOfMonth {
            month,
            week,
            weekday,
        } => posix::Day::WeekdayOfMonth {
            month,
            week,
            weekday,
        },
    }
}

fn offset_of(seconds: i32) -> Offset
    requires { IsSecondsAhead seconds }
    ensures { result.seconds ≡ seconds }
{
    Offset::from_seconds(seconds).unwrap()
}
