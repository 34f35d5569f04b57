//! Rows of the point map.
ghost use Rattle.std.specs.Prelude.{IsTrue, ◌≤◌, ◌||◌, ◌&&◌, ◌==◌};
ghost use Rattle.gw_entries.specs.Shown.{is_shown_by, is_scaled};

use gw_model::PointKey;

/// The type by which a point is shown to clients.
#[derive(Clone, Copy, PartialEq, Eq)]
pub enum Show {
    /// Single-point information (types 1 and 30).
    Single,
    /// Double-point information (types 3 and 31).
    Double,
    /// Scaled value (types 11 and 35).
    Scaled,
    /// Bit string of 32 bits (types 7 and 33).
    Word,
    /// Integrated total (types 15 and 37).
    Total,
}

/// What a scaled value is multiplied by.
#[derive(Clone, Copy)]
pub struct Scale {
    /// The numerator, from 1 to 32767.
    pub num: u16,
    /// The denominator, from 1 to 32767.
    pub den: u16,
    pub ghost num_from: { 1 ≤ num },
    pub ghost num_to: { num ≤ 32767 },
    pub ghost den_from: { 1 ≤ den },
    pub ghost den_to: { den ≤ 32767 },
}

/// A point, and the information object address and type by which clients see it.
#[derive(Clone, Copy)]
pub struct Row {
    pub key: PointKey,
    /// The common address of its outstation, from 1 to 65534.
    pub common_address: u16,
    /// The information object address, from 1 to 16777215.
    pub address: u32,
    pub show: Show,
    /// What a scaled value is multiplied by; 1 for every other type.
    pub scale: Scale,
    pub ghost common_from: { 1 ≤ common_address },
    pub ghost common_to: { common_address ≤ 65534 },
    pub ghost from: { 1 ≤ address },
    pub ghost to: { address ≤ 16777215 },
    pub ghost shown: { IsTrue (is_shown_by key.kind show) },
    pub ghost scaled: { IsTrue (is_scaled show || (scale.num == 1 && scale.den == 1)) },
}
