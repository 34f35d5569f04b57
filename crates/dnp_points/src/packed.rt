//! Packed objects: bits alone, low bits first in each octet (IEEE Std 1815, Annex A).
ghost use Rattle.std.specs.Prelude.{◌≡◌, ◌*◌, ◌+◌, ◌≤◌, ◌%◌, ℕ, List, []};
ghost use Rattle.std.specs.Prelude.{◌∷◌, Some, length, take, drop, IsTrue, refl};
ghost use Rattle.gw_model.specs.Point.{is_of_kind};
ghost use Rattle.gw_model.specs.declared.point.Kind.TheVariants.{Binary, Double, Output};
ghost use Rattle.dnp_objects.specs.declared.object.Size.TheVariants.{Bits};
ghost use Rattle.dnp_objects.specs.declared.object.Access.TheVariants.{Ranges};
ghost use Rattle.dnp_objects.specs.Library.{Variation, objects, object_among, size_of, entry, Point, static, Packed};
ghost use Rattle.dnp_points.specs.Values.{bits_of, number_of_bits, is_packed_width, online_report};
ghost use Rattle.dnp_points.specs.Objects.{packed_reports_by_role};

use crate::value::ONLINE;
use gw_model::{Kind, PointKey, Raw, Report, Stamp};

/// One variation of the object library whose objects are packed: one or two bits that report a point.
pub trait PackedObject {
    /// How many bits an object has.
    const BITS: usize;

    ghost BITS: { ℕ };

    /// The variation as the object library has it.
    ghost variation: { Variation };

    /// What an object whose bits are this number reports of the point with this index.
    fn report(state: u8, outstation: u8, index: u16) -> Report
        // It is the library's report, and there is no other.
        ensures { packed_reports_by_role variation.role variation.event outstation index state ≡ result ∷ [] };

    /// The variation stands in the library.
    ghost known: { object_among objects variation.group variation.number ≡ Some variation };
    /// The size is the library's.
    ghost sized: { size_of variation ≡ Bits BITS };
    /// An object has one bit or two.
    ghost few: { IsTrue (is_packed_width BITS) };
}

/// The bits of one object in packed octets, as a number.
pub fn bits_at(octets: &[u8], bit: usize, width: usize) -> u8
    requires width { IsTrue (is_packed_width width) }
    requires whole { bit % width ≡ 0 }
    requires inside { bit + width ≤ 8 * length octets.now }
    ensures { result ≡ number_of_bits (take width (drop bit (bits_of octets.now))) }
{
    let from_bit_on = octets[bit / 8] >> (bit % 8);
    if width == 1 {
        from_bit_on % 2
    } else {
        from_bit_on % 4
    }
}

/// The static report of an online point.
fn online(outstation: u8, kind: Kind, index: u16, raw: Raw) -> Report
    requires { IsTrue (is_of_kind kind raw) }
    ensures { (fits : IsTrue (is_of_kind kind raw)) → result ≡ online_report outstation kind index raw fits }
{
    let key = PointKey {
        outstation,
        kind,
        index,
    };
    Report {
        key,
        raw,
        flags: ONLINE,
        stamp: Stamp::Untimed,
        event: false,
    }
}

/// A packed binary input (group 1, variation 1; g1v1).
pub struct PackedBinary;

impl PackedObject for PackedBinary {
    const BITS: usize = 1;

    ghost BITS = { 1 };

    ghost variation = { entry 1 1 (Point Binary) static (Packed 1) Ranges };

    fn report(state: u8, outstation: u8, index: u16) -> Report {
        online(outstation, Kind::Binary, index, Raw::Bit(state == 1))
    }

    ghost known = { refl };

    ghost sized = { refl };

    ghost few = { refl };
}

/// A packed double-bit binary input (group 3, variation 1; g3v1).
pub struct PackedDouble;

impl PackedObject for PackedDouble {
    const BITS: usize = 2;

    ghost BITS = { 2 };

    ghost variation = { entry 3 1 (Point Double) static (Packed 2) Ranges };

    fn report(state: u8, outstation: u8, index: u16) -> Report {
        online(outstation, Kind::Double, index, Raw::Two(state % 4))
    }

    ghost known = { refl };

    ghost sized = { refl };

    ghost few = { refl };
}

/// A packed binary output status (group 10, variation 1; g10v1).
pub struct PackedOutput;

impl PackedObject for PackedOutput {
    const BITS: usize = 1;

    ghost BITS = { 1 };

    ghost variation = { entry 10 1 (Point Output) static (Packed 1) Ranges };

    fn report(state: u8, outstation: u8, index: u16) -> Report {
        online(outstation, Kind::Output, index, Raw::Bit(state == 1))
    }

    ghost known = { refl };

    ghost sized = { refl };

    ghost few = { refl };
}
