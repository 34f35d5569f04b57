//! Flags, values and times as octets give them (IEEE Std 1815, Annex A).
ghost use Rattle.std.specs.Prelude.{◌≡◌, ◌⊎◌, length, IsTrue};
ghost use Rattle.gw_model.specs.Point.{is_of_kind};
ghost use Rattle.dnp_objects.specs.Headers.{number};
ghost use Rattle.dnp_points.specs.Values.{flags_of, signed_number, raw_of, stamp_after, IsClock, is_wide_enough};

use dnp_objects::number;
use gw_model::{Kind, Raw, Stamp};

/// The flags of an object without flags: online.
pub const ONLINE: u8 = 0x01;

/// A number of two or of four octets.
#[tactic(auto, using(dnp_objects::proofs::NumberLaws::in_octets))]
fn count_of(octets: &[u8]) -> u32
    requires { (length octets.now ≡ 2) ⊎ (length octets.now ≡ 4) }
    ensures { result ≡ number octets.now }
{
    number(octets) as u32
}

/// A number of two or of four octets in two's complement.
#[tactic(auto, using(dnp_objects::proofs::NumberLaws::in_octets))]
fn signed_of(octets: &[u8]) -> i32
    requires { (length octets.now ≡ 2) ⊎ (length octets.now ≡ 4) }
    ensures { result ≡ signed_number octets.now }
{
    if octets.len() == 2 {
        i32::from((number(octets) as u16).cast_signed())
    } else {
        (number(octets) as u32).cast_signed()
    }
}

/// The flags of an object: the octet as it was sent, or 01 where there is none.
pub fn flags_of(octets: &[u8]) -> u8
    ensures { result ≡ flags_of octets.now }
{
    match octets {
        [] => ONLINE,
        [flags, ..] => *flags,
    }
}

/// The value of an object of a point.
pub fn raw_of(kind: Kind, flags: u8, value: &[u8]) -> Raw
    requires { IsTrue (is_wide_enough kind (length value.now)) }
    ensures value { result ≡ raw_of kind flags value.now }
    ensures fits { IsTrue (is_of_kind kind result) }
{
    match kind {
        Kind::Binary | Kind::Output => Raw::Bit(flags >= 0x80),
        Kind::Double => Raw::Two(flags / 0x40),
        Kind::Counter => Raw::Count(count_of(value)),
        Kind::Analog => Raw::Number(signed_of(value)),
    }
}

/// So many milliseconds after a common time.
pub fn stamp_after(common: Stamp, milliseconds: u16) -> Stamp
    requires { IsClock common }
    ensures { result ≡ stamp_after common milliseconds }
{
    match common {
        Stamp::Untimed => Stamp::Untimed,
        Stamp::At(base) => Stamp::At(base + u64::from(milliseconds)),
        Stamp::Doubtful(base) => Stamp::Doubtful(base + u64::from(milliseconds)),
    }
}
