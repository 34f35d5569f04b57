//! Analog inputs and their events (IEEE Std 1815, Annex A).
ghost use Rattle.std.specs.Prelude.{refl};
ghost use Rattle.std.proofs.Common.{rules};
ghost use Rattle.gw_model.specs.declared.point.Kind.TheVariants.{Analog};
ghost use Rattle.dnp_objects.specs.declared.object.Access.TheVariants.{RangesAndIndexes};
ghost use Rattle.dnp_objects.specs.Library.{entry, Point, static, events, flags, plain, Whole, Timeless, Absolute};

use crate::object::{Layout, Object, Time};
use gw_model::{Kind, Report, Stamp};

/// An analog input of 32 bits with flags (group 30, variation 1; g30v1).
pub struct Analog32WithFlag;

impl Object for Analog32WithFlag {
    const LENGTH: usize = 5;

    ghost LENGTH = { 5 };

    ghost variation = { entry 30 1 (Point Analog) static (Whole flags 4 Timeless) RangesAndIndexes };

    fn report(octets: &[u8], outstation: u8, index: u16, common: Stamp) -> Report {
        Layout::with_flags(Kind::Analog, 4).report(octets, outstation, index, common)
    }

    ghost known = { refl };

    ghost sized = { refl };

    ghost small = { Prim.search rules };
}

/// An analog input of 16 bits with flags (group 30, variation 2; g30v2).
pub struct Analog16WithFlag;

impl Object for Analog16WithFlag {
    const LENGTH: usize = 3;

    ghost LENGTH = { 3 };

    ghost variation = { entry 30 2 (Point Analog) static (Whole flags 2 Timeless) RangesAndIndexes };

    fn report(octets: &[u8], outstation: u8, index: u16, common: Stamp) -> Report {
        Layout::with_flags(Kind::Analog, 2).report(octets, outstation, index, common)
    }

    ghost known = { refl };

    ghost sized = { refl };

    ghost small = { Prim.search rules };
}

/// An analog input of 32 bits without flags (group 30, variation 3; g30v3).
pub struct Analog32WithoutFlag;

impl Object for Analog32WithoutFlag {
    const LENGTH: usize = 4;

    ghost LENGTH = { 4 };

    ghost variation = { entry 30 3 (Point Analog) static (Whole plain 4 Timeless) RangesAndIndexes };

    fn report(octets: &[u8], outstation: u8, index: u16, common: Stamp) -> Report {
        Layout::without_flags(Kind::Analog, 4).report(octets, outstation, index, common)
    }

    ghost known = { refl };

    ghost sized = { refl };

    ghost small = { Prim.search rules };
}

/// An analog input of 16 bits without flags (group 30, variation 4; g30v4).
pub struct Analog16WithoutFlag;

impl Object for Analog16WithoutFlag {
    const LENGTH: usize = 2;

    ghost LENGTH = { 2 };

    ghost variation = { entry 30 4 (Point Analog) static (Whole plain 2 Timeless) RangesAndIndexes };

    fn report(octets: &[u8], outstation: u8, index: u16, common: Stamp) -> Report {
        Layout::without_flags(Kind::Analog, 2).report(octets, outstation, index, common)
    }

    ghost known = { refl };

    ghost sized = { refl };

    ghost small = { Prim.search rules };
}

/// An analog input event of 32 bits without time (group 32, variation 1; g32v1).
pub struct AnalogEvent32;

impl Object for AnalogEvent32 {
    const LENGTH: usize = 5;

    ghost LENGTH = { 5 };

    ghost variation = { entry 32 1 (Point Analog) events (Whole flags 4 Timeless) RangesAndIndexes };

    fn report(octets: &[u8], outstation: u8, index: u16, common: Stamp) -> Report {
        Layout::event(Kind::Analog, 4, Time::Timeless).report(octets, outstation, index, common)
    }

    ghost known = { refl };

    ghost sized = { refl };

    ghost small = { Prim.search rules };
}

/// An analog input event of 16 bits without time (group 32, variation 2; g32v2).
pub struct AnalogEvent16;

impl Object for AnalogEvent16 {
    const LENGTH: usize = 3;

    ghost LENGTH = { 3 };

    ghost variation = { entry 32 2 (Point Analog) events (Whole flags 2 Timeless) RangesAndIndexes };

    fn report(octets: &[u8], outstation: u8, index: u16, common: Stamp) -> Report {
        Layout::event(Kind::Analog, 2, Time::Timeless).report(octets, outstation, index, common)
    }

    ghost known = { refl };

    ghost sized = { refl };

    ghost small = { Prim.search rules };
}

/// An analog input event of 32 bits with time (group 32, variation 3; g32v3).
pub struct AnalogEvent32WithTime;

impl Object for AnalogEvent32WithTime {
    const LENGTH: usize = 11;

    ghost LENGTH = { 11 };

    ghost variation = { entry 32 3 (Point Analog) events (Whole flags 4 Absolute) RangesAndIndexes };

    fn report(octets: &[u8], outstation: u8, index: u16, common: Stamp) -> Report {
        Layout::event(Kind::Analog, 4, Time::Absolute).report(octets, outstation, index, common)
    }

    ghost known = { refl };

    ghost sized = { refl };

    ghost small = { Prim.search rules };
}

/// An analog input event of 16 bits with time (group 32, variation 4; g32v4).
pub struct AnalogEvent16WithTime;

impl Object for AnalogEvent16WithTime {
    const LENGTH: usize = 9;

    ghost LENGTH = { 9 };

    ghost variation = { entry 32 4 (Point Analog) events (Whole flags 2 Absolute) RangesAndIndexes };

    fn report(octets: &[u8], outstation: u8, index: u16, common: Stamp) -> Report {
        Layout::event(Kind::Analog, 2, Time::Absolute).report(octets, outstation, index, common)
    }

    ghost known = { refl };

    ghost sized = { refl };

    ghost small = { Prim.search rules };
}
