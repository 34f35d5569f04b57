//! Values and qualities in words.

use gw_model::{Quality, Stamp, Value};
use run_status::Instant;
use std::fmt;

/// A value in words.
#[derive(Clone, Copy)]
pub struct ValueWords(pub Value);

impl ValueWords {
    /// Whether the value is a number.
    pub fn is_number(self) -> bool {
        matches!(self.0, Value::Scaled(_) | Value::Total(_))
    }
}

/// The states of double-point information (IEC 60870-5-101, 7.2.6.2).
fn double_word(state: u8) -> &'static str {
    match state {
        0 => "intermediate",
        1 => "off",
        2 => "on",
        _ => "indeterminate",
    }
}

impl fmt::Display for ValueWords {
    fn fmt<W: fmt::Write>(&self, f: &mut fmt::Formatter<W>) -> fmt::Result {
        match self.0 {
            Value::Single(on) => f.write_str(if on { "on" } else { "off" }),
            Value::Double(state) => f.write_str(double_word(state)),
            Value::Scaled(number) => write_number(f, number),
            Value::Word(bits) => write_bits(f, bits),
            Value::Total(count) => write_number(f, count),
        }
    }
}

/// Writes a number.
fn write_number<W: fmt::Write, N: fmt::Display + Drop>(
    f: &mut fmt::Formatter<W>,
    number: N,
) -> fmt::Result {
    write!(f, "{number}")
}

/// Writes 32 bits in hexadecimal.
fn write_bits<W: fmt::Write>(f: &mut fmt::Formatter<W>, bits: u32) -> fmt::Result {
    write!(f, "{bits:08x}")
}

/// The type by which a value is shown, in words.
pub fn type_words(value: Value) -> &'static str {
    match value {
        Value::Single(_) => "single point",
        Value::Double(_) => "double point",
        Value::Scaled(_) => "scaled value",
        Value::Word(_) => "bit string",
        Value::Total(_) => "integrated total",
    }
}

/// How many bits a quality has.
const BITS: usize = 7;

/// The letters of a bit of a quality, by its position.
fn letters_of(position: usize) -> &'static str {
    match position {
        0 => "IV",
        1 => "NT",
        2 => "SB",
        3 => "BL",
        4 => "OV",
        5 => "CY",
        _ => "CA",
    }
}

/// The bits of a quality that are set, each by its letters.
#[derive(Clone, Copy)]
pub struct QualityLetters(pub Quality);

impl QualityLetters {
    /// Whether the bit is set that has the letters at a position.
    fn is_set(self, position: usize) -> bool {
        let quality = self.0;
        match position {
            0 => quality.iv,
            1 => quality.nt,
            2 => quality.sb,
            3 => quality.bl,
            4 => quality.ov,
            5 => quality.cy,
            _ => quality.ca,
        }
    }
}

impl fmt::Display for QualityLetters {
    fn fmt<W: fmt::Write>(&self, f: &mut fmt::Formatter<W>) -> fmt::Result {
        let mut between = "";
        for position in 0..BITS {
            if self.is_set(position) {
                write_letters(f, between, letters_of(position))?;
                between = " ";
            }
        }
        Ok(())
    }
}

/// Writes the letters of a bit behind others.
fn write_letters<W: fmt::Write>(
    f: &mut fmt::Formatter<W>,
    between: &str,
    letters: &str,
) -> fmt::Result {
    write!(f, "{between}{letters}")
}

/// The instant of a stamp, and whether it was told by a clock that wasn't synchronized.
pub fn instant_of(stamp: Stamp) -> (Option<u64>, bool) {
    match stamp {
        Stamp::Untimed => (None, false),
        Stamp::At(instant) => (Some(instant), false),
        Stamp::Doubtful(instant) => (Some(instant), true),
    }
}

/// An instant as `2023-11-14T22:13:20.000Z`; nothing where there is none.
#[derive(Clone, Copy)]
pub struct InstantIfAny(pub Option<u64>);

impl fmt::Display for InstantIfAny {
    fn fmt<W: fmt::Write>(&self, f: &mut fmt::Formatter<W>) -> fmt::Result {
        match self.0 {
            Some(instant) => fmt::Display::fmt(&Instant(instant), f),
            None => Ok(()),
        }
    }
}
