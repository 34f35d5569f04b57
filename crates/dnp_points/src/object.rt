//! Objects that report a point: how each variation is laid out.
ghost use Rattle.std.specs.Prelude.{◌≡◌, ◌+◌, ◌<◌, ℕ, List, [], ◌∷◌, Some, length, IsTrue, true, false};
ghost use Rattle.gw_model.specs.Point.{is_of_kind, is_stamped};
ghost use Rattle.dnp_objects.specs.declared.object.Size.{Size};
ghost use Rattle.dnp_objects.specs.declared.object.Size.TheVariants.{Octets};
ghost use Rattle.dnp_objects.specs.Library.{Variation, objects, object_among, size_of, time_octets};
ghost use Rattle.dnp_points.specs.Values.{stamp_of, stamp_where, IsClock, is_wide_enough};
ghost use Rattle.dnp_points.specs.Objects.{flags_octets, point_report, object_reports};
ghost use Rattle.dnp_points.specs.Layouts.{time_of, octets_of};

use crate::value::{flags_of, raw_of, stamp_after};
use dnp_objects::number;
use gw_model::{Kind, PointKey, Report, Stamp};

/// One variation of the object library: octets that report a point.
pub trait Object {
    /// How many octets an object has.
    const LENGTH: usize;

    ghost LENGTH: { ℕ };

    /// The variation as the object library has it.
    ghost variation: { Variation };

    /// What an object reports of the point with this index, after a common time.
    fn report(octets: &[u8], outstation: u8, index: u16, common: Stamp) -> Report
        requires long { length octets.now ≡ LENGTH }
        requires clock { IsClock common }
        // It is the library's report, and there is no other.
        ensures { object_reports variation outstation index common octets.now ≡ result ∷ [] };

    /// The variation stands in the library.
    ghost known: { object_among objects variation.group variation.number ≡ Some variation };
    /// The length is the library's.
    ghost sized: { size_of variation ≡ Octets LENGTH };
    /// The length fits an octet.
    ghost small: { LENGTH < 256 };
}

/// Which time stands at the end of an object.
#[derive(Clone, Copy)]
pub enum Time {
    /// None.
    Timeless,
    /// Milliseconds since 1970, of 48 bits.
    Absolute,
    /// Milliseconds since the common time, of 16 bits.
    Relative,
}

/// How an object of a point is laid out: a flags octet or none, the octets of its value, and a time.
#[derive(Clone, Copy)]
pub struct Layout {
    pub kind: Kind,
    pub event: bool,
    pub flags: bool,
    pub value: usize,
    pub time: Time,
}

impl Time {
    /// The time of an object.
    #[tactic(auto, using(dnp_objects::proofs::NumberLaws::in_octets))]
    fn stamp(self, common: Stamp, octets: &[u8]) -> Stamp
        requires long { length octets.now ≡ time_octets (time_of self) }
        requires clock { IsClock common }
        ensures { result ≡ stamp_of (time_of self) common octets.now }
    {
        match self {
            Time::Timeless => Stamp::Untimed,
            Time::Absolute => Stamp::At(number(octets)),
            Time::Relative => stamp_after(common, number(octets) as u16),
        }
    }
}

/// A static value has no time.
fn stamp_where(event: bool, stamp: Stamp) -> Stamp
    ensures value { result ≡ stamp_where event stamp }
    ensures fits { IsTrue (is_stamped event result) }
{
    if event { stamp } else { Stamp::Untimed }
}

impl Layout {
    /// A static value with flags, whose value has so many octets.
    pub fn with_flags(kind: Kind, value: usize) -> Layout
        ensures { result ≡ record { kind = kind; event = false; flags = true; value = value; time = Time.Timeless } }
    {
        Layout {
            kind,
            event: false,
            flags: true,
            value,
            time: Time::Timeless,
        }
    }

    /// A static value without flags.
    pub fn without_flags(kind: Kind, value: usize) -> Layout
        ensures { result ≡ record { kind = kind; event = false; flags = false; value = value; time = Time.Timeless } }
    {
        Layout {
            kind,
            event: false,
            flags: false,
            value,
            time: Time::Timeless,
        }
    }

    /// An event: it has flags.
    pub fn event(kind: Kind, value: usize, time: Time) -> Layout
        ensures { result ≡ record { kind = kind; event = true; flags = true; value = value; time = time } }
    {
        Layout {
            kind,
            event: true,
            flags: true,
            value,
            time,
        }
    }

    /// What an object of this layout reports.
    #[tactic(auto, unfolding(crate::specs::Objects::point_report))]
    pub fn report(self, octets: &[u8], outstation: u8, index: u16, common: Stamp) -> Report
        requires wide { IsTrue (is_wide_enough self.kind self.value) }
        requires long { length octets.now ≡ octets_of self }
        requires clock { IsClock common }
        ensures { result ≡ point_report self.kind self.event self.flags self.value (time_of self.time)
            outstation index common octets.now }
    {
        let (flags, behind) = octets.split_at(usize::from(self.flags));
        let (value, instant) = behind.split_at(self.value);
        let flags = flags_of(flags);
        let raw = raw_of(self.kind, flags, value);
        let stamp = stamp_where(self.event, self.time.stamp(common, instant));
        let key = PointKey {
            outstation,
            kind: self.kind,
            index,
        };
        Report {
            key,
            raw,
            flags,
            stamp,
            event: self.event,
        }
    }
}
