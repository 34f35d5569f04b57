//! Internal indications (IEEE Std 1815, 4.2.2.6), by bit: IIN1.0 is bit 0 and IIN2.0 is bit 8.
ghost use Rattle.std.specs.Prelude.{◌<◌};

use std::fmt;

/// How many bits have a meaning: IIN1.0 to IIN2.5.
pub const MEANINGS: u32 = 14;

/// Their names.
const MEANT: &[&str] = &[
    "ALL_STATIONS",
    "CLASS_1",
    "CLASS_2",
    "CLASS_3",
    "NEED_TIME",
    "LOCAL_CONTROL",
    "TROUBLE",
    "RESTART",
    "NO_FUNCTION",
    "OBJECT_UNKNOWN",
    "PARAMETER_ERROR",
    "OVERFLOW",
    "ALREADY_EXECUTING",
    "CONFIGURATION_CORRUPT",
];

/// Those that tell of something that is wrong: IIN1.6, IIN2.0 to IIN2.3 and IIN2.5.
const TROUBLES: u16 = 0x2F40;

/// IIN1.4.
const NEED_TIME: u16 = 1 << 4;

/// The name of a bit.
pub fn name_of(bit: u32) -> &'static str {
    match MEANT.get(bit as usize) {
        Some(name) => name,
        None => "RESERVED",
    }
}

/// Whether a bit is set.
pub fn is_set(indications: u16, bit: u32) -> bool
    requires { bit < 16 }
{
    indications >> bit & 1 == 1
}

/// Those of them that tell of something that is wrong.
pub fn trouble_in(indications: u16) -> u16 {
    indications & TROUBLES
}

/// Whether they tell of something that is wrong.
pub fn tell_of_trouble(indications: u16) -> bool {
    trouble_in(indications) != 0
}

/// Whether they ask for the time (IIN1.4).
pub fn ask_for_time(indications: u16) -> bool {
    indications & NEED_TIME != 0
}

/// Writes the names of those that are set, as `NEED_TIME, RESTART`; `none` where none is.
pub fn write_names<W: fmt::Write>(f: &mut fmt::Formatter<W>, indications: u16) -> fmt::Result {
    if indications == 0 {
        return f.write_str("none");
    }
    let mut separator = "";
    for bit in 0..16u32 {
        if is_set(indications, bit) {
            write_name(f, separator, name_of(bit))?;
            separator = ", ";
        }
    }
    Ok(())
}

/// Writes a name behind those before it.
fn write_name<W: fmt::Write>(
    f: &mut fmt::Formatter<W>,
    separator: &str,
    name: &str,
) -> fmt::Result {
    f.write_str(separator)?;
    f.write_str(name)
}
