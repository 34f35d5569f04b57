//! Counters and their events (IEEE Std 1815, Annex A).
ghost use Rattle.std.specs.Prelude.{refl};
ghost use Rattle.std.proofs.Common.{rules};
ghost use Rattle.gw_model.specs.declared.point.Kind.TheVariants.{Counter};
ghost use Rattle.dnp_objects.specs.declared.object.Access.TheVariants.{RangesAndIndexes};
ghost use Rattle.dnp_objects.specs.Library.{entry, Point, static, events, flags, plain, Whole, Timeless, Absolute};

use crate::object::{Layout, Object, Time};
use gw_model::{Kind, Report, Stamp};

/// A counter of 32 bits with flags (group 20, variation 1; g20v1).
pub struct Counter32WithFlag;

impl Object for Counter32WithFlag {
    const LENGTH: usize = 5;

    ghost LENGTH = { 5 };

    ghost variation = { entry 20 1 (Point Counter) static (Whole flags 4 Timeless) RangesAndIndexes };

    fn report(octets: &[u8], outstation: u8, index: u16, common: Stamp) -> Report {
        Layout::with_flags(Kind::Counter, 4).report(octets, outstation, index, common)
    }

    ghost known = { refl };

    ghost sized = { refl };

    ghost small = { Prim.search rules };
}

/// A counter of 16 bits with flags (group 20, variation 2; g20v2).
pub struct Counter16WithFlag;

impl Object for Counter16WithFlag {
    const LENGTH: usize = 3;

    ghost LENGTH = { 3 };

    ghost variation = { entry 20 2 (Point Counter) static (Whole flags 2 Timeless) RangesAndIndexes };

    fn report(octets: &[u8], outstation: u8, index: u16, common: Stamp) -> Report {
        Layout::with_flags(Kind::Counter, 2).report(octets, outstation, index, common)
    }

    ghost known = { refl };

    ghost sized = { refl };

    ghost small = { Prim.search rules };
}

/// A counter of 32 bits without flags (group 20, variation 5; g20v5).
pub struct Counter32WithoutFlag;

impl Object for Counter32WithoutFlag {
    const LENGTH: usize = 4;

    ghost LENGTH = { 4 };

    ghost variation = { entry 20 5 (Point Counter) static (Whole plain 4 Timeless) RangesAndIndexes };

    fn report(octets: &[u8], outstation: u8, index: u16, common: Stamp) -> Report {
        Layout::without_flags(Kind::Counter, 4).report(octets, outstation, index, common)
    }

    ghost known = { refl };

    ghost sized = { refl };

    ghost small = { Prim.search rules };
}

/// A counter of 16 bits without flags (group 20, variation 6; g20v6).
pub struct Counter16WithoutFlag;

impl Object for Counter16WithoutFlag {
    const LENGTH: usize = 2;

    ghost LENGTH = { 2 };

    ghost variation = { entry 20 6 (Point Counter) static (Whole plain 2 Timeless) RangesAndIndexes };

    fn report(octets: &[u8], outstation: u8, index: u16, common: Stamp) -> Report {
        Layout::without_flags(Kind::Counter, 2).report(octets, outstation, index, common)
    }

    ghost known = { refl };

    ghost sized = { refl };

    ghost small = { Prim.search rules };
}

/// A counter event of 32 bits with flags (group 22, variation 1; g22v1).
pub struct CounterEvent32;

impl Object for CounterEvent32 {
    const LENGTH: usize = 5;

    ghost LENGTH = { 5 };

    ghost variation = { entry 22 1 (Point Counter) events (Whole flags 4 Timeless) RangesAndIndexes };

    fn report(octets: &[u8], outstation: u8, index: u16, common: Stamp) -> Report {
        Layout::event(Kind::Counter, 4, Time::Timeless).report(octets, outstation, index, common)
    }

    ghost known = { refl };

    ghost sized = { refl };

    ghost small = { Prim.search rules };
}

/// A counter event of 16 bits with flags (group 22, variation 2; g22v2).
pub struct CounterEvent16;

impl Object for CounterEvent16 {
    const LENGTH: usize = 3;

    ghost LENGTH = { 3 };

    ghost variation = { entry 22 2 (Point Counter) events (Whole flags 2 Timeless) RangesAndIndexes };

    fn report(octets: &[u8], outstation: u8, index: u16, common: Stamp) -> Report {
        Layout::event(Kind::Counter, 2, Time::Timeless).report(octets, outstation, index, common)
    }

    ghost known = { refl };

    ghost sized = { refl };

    ghost small = { Prim.search rules };
}

/// A counter event of 32 bits with flags and time (group 22, variation 5; g22v5).
pub struct CounterEvent32WithTime;

impl Object for CounterEvent32WithTime {
    const LENGTH: usize = 11;

    ghost LENGTH = { 11 };

    ghost variation = { entry 22 5 (Point Counter) events (Whole flags 4 Absolute) RangesAndIndexes };

    fn report(octets: &[u8], outstation: u8, index: u16, common: Stamp) -> Report {
        Layout::event(Kind::Counter, 4, Time::Absolute).report(octets, outstation, index, common)
    }

    ghost known = { refl };

    ghost sized = { refl };

    ghost small = { Prim.search rules };
}

/// A counter event of 16 bits with flags and time (group 22, variation 6; g22v6).
pub struct CounterEvent16WithTime;

impl Object for CounterEvent16WithTime {
    const LENGTH: usize = 9;

    ghost LENGTH = { 9 };

    ghost variation = { entry 22 6 (Point Counter) events (Whole flags 2 Absolute) RangesAndIndexes };

    fn report(octets: &[u8], outstation: u8, index: u16, common: Stamp) -> Report {
        Layout::event(Kind::Counter, 2, Time::Absolute).report(octets, outstation, index, common)
    }

    ghost known = { refl };

    ghost sized = { refl };

    ghost small = { Prim.search rules };
}
