//! What clients are told of a point.
ghost use Rattle.std.specs.Prelude.{◌≡◌};
ghost use Rattle.gw_model.specs.Keys.{same_shown, same_value, same_quality};
ghost use Rattle.gw_model.specs.Values.{is_total};

use crate::point::Stamp;

/// A value by the type that shows it (IEC 60870-5-101, 7.2.6).
#[derive(Clone, Copy, PartialEq)]
pub enum Value {
    /// Single-point information.
    Single(bool),
    /// Double-point information: 0 intermediate, 1 off, 2 on, 3 indeterminate.
    Double(u8),
    /// A scaled value.
    Scaled(i16),
    /// A bit string of 32 bits.
    Word(u32),
    /// An integrated total.
    Total(u32),
}

impl Value {
    /// Whether it is an integrated total.
    pub fn is_total(self) -> bool
        ensures { result ≡ is_total self }
    {
        matches!(self, Value::Total(_))
    }
}

/// The quality bits of IEC 60870-5-101: the quality descriptor (7.2.6.3) and those of a binary
/// counter reading (7.2.6.9).
#[derive(Clone, Copy, PartialEq)]
pub struct Quality {
    /// IV: invalid.
    pub iv: bool,
    /// NT: not topical.
    pub nt: bool,
    /// SB: substituted.
    pub sb: bool,
    /// BL: blocked.
    pub bl: bool,
    /// OV: overflow.
    pub ov: bool,
    /// CY: the counter overflowed.
    pub cy: bool,
    /// CA: the counter was adjusted.
    pub ca: bool,
}

impl Quality {
    /// No bit set.
    pub const GOOD: Quality = Quality {
        iv: false,
        nt: false,
        sb: false,
        bl: false,
        ov: false,
        cy: false,
        ca: false,
    };
}

/// A value with its quality and time, of an information object.
#[derive(Clone, Copy)]
pub struct Observation {
    /// The common address of the object's station (IEC 60870-5-101, 7.2.4).
    pub common: u16,
    /// The information object address.
    pub address: u32,
    pub value: Value,
    pub quality: Quality,
    /// The time, where there is one.
    pub stamp: Stamp,
}

impl Observation {
    /// The two show one value and one quality, whatever their addresses and times.
    pub fn shows_same(&self, other: &Observation) -> bool
        ensures { result ≡ same_shown self.now other.now }
    {
        is_same_value(&self.value, &other.value) && is_same_quality(&self.quality, &other.quality)
    }
}

fn is_same_value(a: &Value, b: &Value) -> bool
    ensures { result ≡ same_value a.now b.now }
{
    *a == *b
}

fn is_same_quality(a: &Quality, b: &Quality) -> bool
    ensures { result ≡ same_quality a.now b.now }
{
    *a == *b
}
