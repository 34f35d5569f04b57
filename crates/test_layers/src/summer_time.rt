//! gw_time: time tags by rules for summer time, each with the instant that it means.
#![tactic(auto, unfolding(gw_model::specs::Rule::IsRuleOrNone))]

use crate::checks::{alike_at, same_at};
use gw_model::{ClockRule, Daylight, RuleDay, RuleMoment, Stamp};
use gw_time::{Zone, from_tag, to_tag};
use std::process::Abort;
use std::test::Fail;

/// CET-1CEST,M3.5.0,M10.5.0/3
const CENTRAL_EUROPE: Zone = Zone {
    offset_minutes: 60,
    rule: Some(ClockRule {
        seconds: 3600,
        daylight: Some(Daylight {
            seconds: 7200,
            begins: RuleMoment {
                day: RuleDay::WeekdayOfMonth {
                    month: 3,
                    week: 5,
                    weekday: 0,
                },
                seconds: 7200,
            },
            ends: RuleMoment {
                day: RuleDay::WeekdayOfMonth {
                    month: 10,
                    week: 5,
                    weekday: 0,
                },
                seconds: 10_800,
            },
        }),
    }),
};

/// AEST-10AEDT,M10.1.0,M4.1.0/3
const NEW_SOUTH_WALES: Zone = Zone {
    offset_minutes: 600,
    rule: Some(ClockRule {
        seconds: 36_000,
        daylight: Some(Daylight {
            seconds: 39_600,
            begins: RuleMoment {
                day: RuleDay::WeekdayOfMonth {
                    month: 10,
                    week: 1,
                    weekday: 0,
                },
                seconds: 7200,
            },
            ends: RuleMoment {
                day: RuleDay::WeekdayOfMonth {
                    month: 4,
                    week: 1,
                    weekday: 0,
                },
                seconds: 10_800,
            },
        }),
    }),
};

/// LHST-10:30LHDT-11,M10.1.0,M4.1.0
const LORD_HOWE: Zone = Zone {
    offset_minutes: 630,
    rule: Some(ClockRule {
        seconds: 37_800,
        daylight: Some(Daylight {
            seconds: 39_600,
            begins: RuleMoment {
                day: RuleDay::WeekdayOfMonth {
                    month: 10,
                    week: 1,
                    weekday: 0,
                },
                seconds: 7200,
            },
            ends: RuleMoment {
                day: RuleDay::WeekdayOfMonth {
                    month: 4,
                    week: 1,
                    weekday: 0,
                },
                seconds: 7200,
            },
        }),
    }),
};

/// The clocks of a station, an instant in milliseconds since 1970, and its tag.
type Row = (Zone, u64, [u8; 7]);

/// Tags that clocks show.
const SHOWN: [Row; 7] = [
    (
        CENTRAL_EUROPE,
        1_700_000_000_000,
        [0x20, 0x4E, 0x0D, 0x17, 0x0E, 0x0B, 0x17],
    ),
    (
        CENTRAL_EUROPE,
        1_688_169_600_000,
        [0x00, 0x00, 0x00, 0x82, 0x01, 0x07, 0x17],
    ),
    (
        CENTRAL_EUROPE,
        1_698_539_400_000,
        [0x00, 0x00, 0x1E, 0x82, 0x1D, 0x0A, 0x17],
    ),
    (
        CENTRAL_EUROPE,
        1_698_543_000_000,
        [0x00, 0x00, 0x1E, 0x02, 0x1D, 0x0A, 0x17],
    ),
    (
        NEW_SOUTH_WALES,
        4_102_405_199_999,
        [0x5F, 0xEA, 0x3B, 0x97, 0x1F, 0x0C, 0x63],
    ),
    (
        NEW_SOUTH_WALES,
        946_645_200_000,
        [0x00, 0x00, 0x00, 0x80, 0x01, 0x01, 0x00],
    ),
    (
        LORD_HOWE,
        1_700_000_000_000,
        [0x20, 0x4E, 0x2B, 0x08, 0x0F, 0x0B, 0x17],
    ),
];

/// Tags that no clock shows: half past two of the hour that is skipped in spring, and summer time in November.
const BY_ARITHMETIC: [Row; 2] = [
    (
        CENTRAL_EUROPE,
        1_679_794_200_000,
        [0x00, 0x00, 0x1E, 0x02, 0x1A, 0x03, 0x17],
    ),
    (
        CENTRAL_EUROPE,
        1_699_996_400_000,
        [0x20, 0x4E, 0x0D, 0x97, 0x0E, 0x0B, 0x17],
    ),
];

/// Instants without a tag.
const WITHOUT_TAG: [(Zone, u64); 8] = [
    (NEW_SOUTH_WALES, 4_102_405_200_000),
    (NEW_SOUTH_WALES, 946_645_199_999),
    (CENTRAL_EUROPE, 0),
    (CENTRAL_EUROPE, 253_402_207_201_000),
    (CENTRAL_EUROPE, u64::MAX),
    (NEW_SOUTH_WALES, u64::MAX),
    (LORD_HOWE, u64::MAX),
    (Zone::UTC, u64::MAX),
];

#[test]
fn summer_time(rt: HostRuntime) -> Result<(), Fail> {
    for (zone, instant, tag) in &SHOWN {
        same_at(
            &rt,
            &to_tag(Stamp::At(*instant), zone),
            &Some(*tag),
            instant,
        );
        alike_at(&rt, &from_tag(tag, zone), &Ok(Stamp::At(*instant)), instant);
    }
    for (zone, instant, tag) in &BY_ARITHMETIC {
        alike_at(&rt, &from_tag(tag, zone), &Ok(Stamp::At(*instant)), instant);
    }
    for (zone, instant) in &WITHOUT_TAG {
        same_at(&rt, &to_tag(Stamp::At(*instant), zone), &None, instant);
        same_at(
            &rt,
            &to_tag(Stamp::Doubtful(*instant), zone),
            &None,
            instant,
        );
    }
    Ok(())
}
