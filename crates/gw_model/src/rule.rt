//! Rules for summer time.

/// A day of the year, as a rule tells it.
#[derive(Clone, Copy)]
pub enum RuleDay {
    /// `Jn`: the day from 1 to 365, where 29 February is never counted.
    JulianOne(u16),
    /// `n`: the day from 0 to 365, where 29 February is counted.
    JulianZero(u16),
    /// `Mm.w.d`: the weekday d (0 is Sunday) of week w of month m. Week 5 is the last.
    WeekdayOfMonth { month: u8, week: u8, weekday: u8 },
}

/// A moment of each year: a day, and how many seconds after its midnight, or before it.
#[derive(Clone, Copy)]
pub struct RuleMoment {
    pub day: RuleDay,
    pub seconds: i32,
}

/// Daylight saving time: how many seconds clocks are ahead of UTC, and when it begins and ends.
#[derive(Clone, Copy)]
pub struct Daylight {
    pub seconds: i32,
    pub begins: RuleMoment,
    pub ends: RuleMoment,
}

/// A rule of POSIX's variable TZ (IEEE Std 1003.1, 8.3) without the names of its times: how many seconds clocks are
/// ahead of UTC by standard time, and daylight saving time, if there is one.
#[derive(Clone, Copy)]
pub struct ClockRule {
    pub seconds: i32,
    pub daylight: Option<Daylight>,
}
