//! Rules for summer time, which jiff reads.
ghost use Rattle.std.specs.Prelude.{◌≡◌, IfSome};
ghost use Rattle.jiff_tz.specs.PosixText.{day_time_view, dst_view, tz_view};
ghost use Rattle.gw_model.specs.Rule.{IsRuleMoment, IsDaylight, IsClockRule};
ghost use Rattle.gw_entries.specs.Rule.{day_of, moment_of, daylight_of, rule_of, rule_in};

use gw_model::{ClockRule, Daylight, RuleDay, RuleMoment};
use jiff::tz::TimeZone;
use jiff_tz::posix;

/// The rule of POSIX's TZ variable (IEEE Std 1003.1) that a text is, if it's one.
pub(crate) fn rule_read(text: &str) -> Option<ClockRule>
    ensures value { result ≡ rule_in text.now }
    ensures within { IfSome result IsClockRule }
{
    match TimeZone::posix(text).map(|zone| zone.to_plain()) {
        Ok(jiff_tz::TimeZone::Posix(rule)) => Some(rule_of(rule)),
        _ => None,
    }
}

/// A rule without the names of its times.
fn rule_of(rule: posix::TimeZone) -> ClockRule
    ensures value { result ≡ rule_of (tz_view rule) }
    ensures within { IsClockRule result }
{
    let seconds = rule.std_offset.seconds;
    match rule.dst {
        None => ClockRule {
            seconds,
            daylight: None,
        },
        Some(daylight) => ClockRule {
            seconds,
            daylight: Some(daylight_of(daylight)),
        },
    }
}

fn daylight_of(daylight: posix::Dst) -> Daylight
    ensures value { result ≡ daylight_of (dst_view daylight) }
    ensures within { IsDaylight result }
{
    Daylight {
        seconds: daylight.offset.seconds,
        begins: moment_of(daylight.rule.start),
        ends: moment_of(daylight.rule.end),
    }
}

fn moment_of(moment: posix::DayTime) -> RuleMoment
    ensures value { result ≡ moment_of (day_time_view moment) }
    ensures within { IsRuleMoment result }
{
    RuleMoment {
        day: day_of(moment.date),
        seconds: moment.time,
    }
}

fn day_of(day: posix::Day) -> RuleDay
    ensures { result ≡ day_of day }
{
    match day {
        posix::Day::JulianOne(number) => RuleDay::JulianOne(number),
        posix::Day::JulianZero(number) => RuleDay::JulianZero(number),
        posix::Day::WeekdayOfMonth {
            month,
            week,
            weekday,
        } => RuleDay::WeekdayOfMonth {
            month,
            week,
            weekday,
        },
    }
}
