//! Binary inputs, double-bit binary inputs and binary output status (IEEE Std 1815, Annex A).
ghost use Rattle.std.specs.Prelude.{refl};
ghost use Rattle.std.proofs.Common.{rules};
ghost use Rattle.gw_model.specs.declared.point.Kind.TheVariants.{Binary, Double, Output};
ghost use Rattle.dnp_objects.specs.declared.object.Access.TheVariants.{RangesAndIndexes};
ghost use Rattle.dnp_objects.specs.Library.{entry, Point, static, events, flags, Whole, Timeless, Absolute, Relative};

use crate::object::{Layout, Object, Time};
use gw_model::{Kind, Report, Stamp};

/// A binary input with flags (group 1, variation 2; g1v2).
pub struct BinaryWithFlags;

impl Object for BinaryWithFlags {
    const LENGTH: usize = 1;

    ghost LENGTH = { 1 };

    ghost variation = { entry 1 2 (Point Binary) static (Whole flags 0 Timeless) RangesAndIndexes };

    fn report(octets: &[u8], outstation: u8, index: u16, common: Stamp) -> Report {
        Layout::with_flags(Kind::Binary, 0).report(octets, outstation, index, common)
    }

    ghost known = { refl };

    ghost sized = { refl };

    ghost small = { Prim.search rules };
}

/// A binary input event without time (group 2, variation 1; g2v1).
pub struct BinaryEvent;

impl Object for BinaryEvent {
    const LENGTH: usize = 1;

    ghost LENGTH = { 1 };

    ghost variation = { entry 2 1 (Point Binary) events (Whole flags 0 Timeless) RangesAndIndexes };

    fn report(octets: &[u8], outstation: u8, index: u16, common: Stamp) -> Report {
        Layout::event(Kind::Binary, 0, Time::Timeless).report(octets, outstation, index, common)
    }

    ghost known = { refl };

    ghost sized = { refl };

    ghost small = { Prim.search rules };
}

/// A binary input event with absolute time (group 2, variation 2; g2v2).
pub struct BinaryEventWithTime;

impl Object for BinaryEventWithTime {
    const LENGTH: usize = 7;

    ghost LENGTH = { 7 };

    ghost variation = { entry 2 2 (Point Binary) events (Whole flags 0 Absolute) RangesAndIndexes };

    fn report(octets: &[u8], outstation: u8, index: u16, common: Stamp) -> Report {
        Layout::event(Kind::Binary, 0, Time::Absolute).report(octets, outstation, index, common)
    }

    ghost known = { refl };

    ghost sized = { refl };

    ghost small = { Prim.search rules };
}

/// A binary input event with relative time (group 2, variation 3; g2v3).
pub struct BinaryEventWithRelativeTime;

impl Object for BinaryEventWithRelativeTime {
    const LENGTH: usize = 3;

    ghost LENGTH = { 3 };

    ghost variation = { entry 2 3 (Point Binary) events (Whole flags 0 Relative) RangesAndIndexes };

    fn report(octets: &[u8], outstation: u8, index: u16, common: Stamp) -> Report {
        Layout::event(Kind::Binary, 0, Time::Relative).report(octets, outstation, index, common)
    }

    ghost known = { refl };

    ghost sized = { refl };

    ghost small = { Prim.search rules };
}

/// A double-bit binary input with flags (group 3, variation 2; g3v2).
pub struct DoubleWithFlags;

impl Object for DoubleWithFlags {
    const LENGTH: usize = 1;

    ghost LENGTH = { 1 };

    ghost variation = { entry 3 2 (Point Double) static (Whole flags 0 Timeless) RangesAndIndexes };

    fn report(octets: &[u8], outstation: u8, index: u16, common: Stamp) -> Report {
        Layout::with_flags(Kind::Double, 0).report(octets, outstation, index, common)
    }

    ghost known = { refl };

    ghost sized = { refl };

    ghost small = { Prim.search rules };
}

/// A double-bit binary input event without time (group 4, variation 1; g4v1).
pub struct DoubleEvent;

impl Object for DoubleEvent {
    const LENGTH: usize = 1;

    ghost LENGTH = { 1 };

    ghost variation = { entry 4 1 (Point Double) events (Whole flags 0 Timeless) RangesAndIndexes };

    fn report(octets: &[u8], outstation: u8, index: u16, common: Stamp) -> Report {
        Layout::event(Kind::Double, 0, Time::Timeless).report(octets, outstation, index, common)
    }

    ghost known = { refl };

    ghost sized = { refl };

    ghost small = { Prim.search rules };
}

/// A double-bit binary input event with absolute time (group 4, variation 2; g4v2).
pub struct DoubleEventWithTime;

impl Object for DoubleEventWithTime {
    const LENGTH: usize = 7;

    ghost LENGTH = { 7 };

    ghost variation = { entry 4 2 (Point Double) events (Whole flags 0 Absolute) RangesAndIndexes };

    fn report(octets: &[u8], outstation: u8, index: u16, common: Stamp) -> Report {
        Layout::event(Kind::Double, 0, Time::Absolute).report(octets, outstation, index, common)
    }

    ghost known = { refl };

    ghost sized = { refl };

    ghost small = { Prim.search rules };
}

/// A double-bit binary input event with relative time (group 4, variation 3; g4v3).
pub struct DoubleEventWithRelativeTime;

impl Object for DoubleEventWithRelativeTime {
    const LENGTH: usize = 3;

    ghost LENGTH = { 3 };

    ghost variation = { entry 4 3 (Point Double) events (Whole flags 0 Relative) RangesAndIndexes };

    fn report(octets: &[u8], outstation: u8, index: u16, common: Stamp) -> Report {
        Layout::event(Kind::Double, 0, Time::Relative).report(octets, outstation, index, common)
    }

    ghost known = { refl };

    ghost sized = { refl };

    ghost small = { Prim.search rules };
}

/// A binary output status with flags (group 10, variation 2; g10v2).
pub struct OutputWithFlags;

impl Object for OutputWithFlags {
    const LENGTH: usize = 1;

    ghost LENGTH = { 1 };

    ghost variation = { entry 10 2 (Point Output) static (Whole flags 0 Timeless) RangesAndIndexes };

    fn report(octets: &[u8], outstation: u8, index: u16, common: Stamp) -> Report {
        Layout::with_flags(Kind::Output, 0).report(octets, outstation, index, common)
    }

    ghost known = { refl };

    ghost sized = { refl };

    ghost small = { Prim.search rules };
}

/// A binary output event without time (group 11, variation 1; g11v1).
pub struct OutputEvent;

impl Object for OutputEvent {
    const LENGTH: usize = 1;

    ghost LENGTH = { 1 };

    ghost variation = { entry 11 1 (Point Output) events (Whole flags 0 Timeless) RangesAndIndexes };

    fn report(octets: &[u8], outstation: u8, index: u16, common: Stamp) -> Report {
        Layout::event(Kind::Output, 0, Time::Timeless).report(octets, outstation, index, common)
    }

    ghost known = { refl };

    ghost sized = { refl };

    ghost small = { Prim.search rules };
}

/// A binary output event with time (group 11, variation 2; g11v2).
pub struct OutputEventWithTime;

impl Object for OutputEventWithTime {
    const LENGTH: usize = 7;

    ghost LENGTH = { 7 };

    ghost variation = { entry 11 2 (Point Output) events (Whole flags 0 Absolute) RangesAndIndexes };

    fn report(octets: &[u8], outstation: u8, index: u16, common: Stamp) -> Report {
        Layout::event(Kind::Output, 0, Time::Absolute).report(octets, outstation, index, common)
    }

    ghost known = { refl };

    ghost sized = { refl };

    ghost small = { Prim.search rules };
}
