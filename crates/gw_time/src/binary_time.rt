//! The numbers in a time tag.
ghost use Rattle.std.specs.Prelude.{◌≡◌, ◌+◌, ◌*◌, ◌/◌, ◌↔◌, ◌<◌, ℕ};
ghost use Rattle.std.specs.Prelude.{pos, ◌≤ℤ◌, ◌*ℤ◌, IsTrue, IsSome, IfSome};
ghost use Rattle.jiff_core.specs.Date.{IsYmd};
ghost use Rattle.jiff_core.specs.Time.{time_nanos};
ghost use Rattle.jiff_core.specs.DateTime.{civil_nanos};
ghost use Rattle.gw_time.specs.Tag.{is_in_range, has_day, civil_year, time_of_day, civil_milliseconds};
ghost use Rattle.gw_time.specs.Spelling.{numbers_at};

use jiff::civil::{Date, DateTime, Time};

/// Seven octet binary time, CP56Time2a (IEC 60870-5-101, 7.2.6.18), as the numbers that it is made of.
#[derive(Clone, Copy)]
pub struct BinaryTime {
    /// Milliseconds in the minute.
    pub milliseconds: u16,
    pub minute: u8,
    /// IV: the time is in doubt.
    pub invalid: bool,
    /// SU: the time is one of summer time.
    pub summer: bool,
    pub hour: u8,
    /// Day of month.
    pub day: u8,
    pub month: u8,
    /// Year, from 2000 on.
    pub year: u8,
}

impl BinaryTime {
    ghost use Rattle.gw_time.specs.Tag.{numbers_in};
    ghost use Rattle.gw_time.specs.Spelling.{octets_of};

    /// The numbers in seven octets. The day of week and the reserved bits are not looked at.
    pub fn read(tag: &[u8; 7]) -> BinaryTime
        ensures { result ≡ numbers_in tag.now }
    {
        let [low, high, minute, hour, day, month, year] = *tag;
        BinaryTime {
            milliseconds: u16::from_le_bytes([low, high]),
            minute: minute % 64,
            invalid: minute / 128 % 2 == 1,
            summer: hour / 128 % 2 == 1,
            hour: hour % 32,
            day: day % 32,
            month: month % 16,
            year: year % 128,
        }
    }

    /// The octets that have these numbers, and no other bit set.
    pub fn octets(&self) -> [u8; 7]
        requires minute { self.now.minute < 64 }
        requires hour { self.now.hour < 32 }
        ensures { result ≡ octets_of self.now }
    {
        let [low, high] = self.milliseconds.to_le_bytes();
        let minute = self.minute + 128 * u8::from(self.invalid);
        let hour = self.hour + 128 * u8::from(self.summer);
        [low, high, minute, hour, self.day, self.month, self.year]
    }

    /// Each number but the day of month is one that a clock or a calendar shows.
    pub fn is_in_range(&self) -> bool
        ensures { result ≡ is_in_range self.now }
    {
        self.milliseconds < 60_000
            && self.minute < 60
            && self.hour < 24
            && 1 <= self.month
            && self.month <= 12
            && self.year < 100
    }
}

/// The civil time of a tag, if the month has the day.
pub(crate) fn civil_time(tag: BinaryTime) -> Option<DateTime>
    requires { IsTrue (is_in_range tag) }
    ensures found { IsSome result ↔ IsTrue (has_day tag) }
    ensures value { IfSome result
        (λ shown. civil_nanos shown ≡ civil_milliseconds tag *ℤ pos 1_000_000) }
    ensures low { IfSome result (λ shown. pos 2000 ≤ℤ shown.date.year) }
    ensures high { IfSome result (λ shown. shown.date.year ≤ℤ pos 2099) }
{
    let date = date_of(tag)?;
    Some(date.to_datetime(time_of(tag)))
}

/// The date, if the month has the day.
fn date_of(tag: BinaryTime) -> Option<Date>
    requires { IsTrue (is_in_range tag) }
    ensures found { IsSome result ↔ IsTrue (has_day tag) }
    ensures value { IfSome result (IsYmd (civil_year tag) (pos tag.month) (pos tag.day)) }
{
    let day = i8::try_from(tag.day).ok()?;
    Date::new(2000 + i16::from(tag.year), tag.month as i8, day).ok()
}

/// The time of day.
fn time_of(tag: BinaryTime) -> Time
    requires { IsTrue (is_in_range tag) }
    ensures { time_nanos result ≡ time_of_day tag * 1_000_000 }
{
    let second = tag.milliseconds / 1000;
    let nanosecond = i32::from(tag.milliseconds % 1000) * 1_000_000;
    Time::new(tag.hour as i8, tag.minute as i8, second as i8, nanosecond).unwrap()
}

/// The numbers that show a civil time of whole milliseconds.
pub(crate) fn numbers_showing(shown: DateTime, invalid: bool, summer: bool) -> BinaryTime
    requires low { pos 2000 ≤ℤ shown.date.year }
    requires high { shown.date.year ≤ℤ pos 2099 }
    ensures minute { result.minute < 64 }
    ensures hour { result.hour < 32 }
    ensures numbers { (n : ℕ) → civil_nanos shown ≡ pos n *ℤ pos 1_000_000
        → result ≡ numbers_at invalid summer n }
{
    let (milliseconds, minute, hour) = numbers_of_time(shown.time());
    let (day, month, year) = numbers_of_date(shown.date());
    BinaryTime {
        milliseconds,
        minute,
        invalid,
        summer,
        hour,
        day,
        month,
        year,
    }
}

/// Milliseconds in the minute, minute and hour of a time of day.
fn numbers_of_time(time: Time) -> (u16, u8, u8)
    ensures milliseconds { result.0 ≡ time.second * 1000 + time.subsec_nanosecond / 1_000_000 }
    ensures minute { result.1 ≡ time.minute }
    ensures hour { result.2 ≡ time.hour }
{
    let milliseconds = 1000 * i32::from(time.second()) + i32::from(time.millisecond());
    (milliseconds as u16, time.minute() as u8, time.hour() as u8)
}

/// Day of month, month, and year from 2000 on of a date.
fn numbers_of_date(date: Date) -> (u8, u8, u8)
    requires low { pos 2000 ≤ℤ date.year }
    requires high { date.year ≤ℤ pos 2099 }
    ensures day { result.0 ≡ date.day }
    ensures month { result.1 ≡ date.month }
    ensures year { pos (2000 + result.2) ≡ date.year }
{
    let year = date.year() - 2000;
    (date.day() as u8, date.month() as u8, year as u8)
}
