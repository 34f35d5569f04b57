//! What the octets of a settings file mean.

use cmd_profile::{Fault, KeyPlace, Plain, Settings, SettingsFault};
use std::alloc::Global;
use std::{fmt, str};
use thiserror::Error;

/// How many octets a settings file may have. One with 20,000 controls, each with all of its keys, has some four
/// million.
pub const LONGEST_FILE: u64 = 16_777_216;

/// Why a settings file can't be used.
#[derive(Debug, Drop, Error)]
pub enum Unusable {
    /// It can't be read, or is too long.
    #[error("file")]
    File,
    /// Memory ran out while it was read.
    #[error("memory")]
    Memory,
    /// It is no text in UTF-8.
    #[error("1 Toml")]
    NotText,
    /// The text is refused.
    #[error(fmt = write_fault)]
    Refused(#[from] SettingsFault),
}

/// Writes what is wrong with a text, and where.
fn write_fault<W: fmt::Write>(fault: &SettingsFault, f: &mut fmt::Formatter<W>) -> fmt::Result {
    match fault {
        SettingsFault::Refused(fault, place) => write_refusal(*fault, place, f),
        _ => write!(f, "{fault}"),
    }
}

/// Writes what is wrong at a key: the fault, the section, the position in it, and the key.
fn write_refusal<W: fmt::Write>(
    fault: Fault,
    place: &KeyPlace,
    f: &mut fmt::Formatter<W>,
) -> fmt::Result {
    let (section, position) = (place.section.name(), place.position);
    let key = Plain(place.key.as_str());
    write!(f, "{fault} {section} {position} {key}")
}

/// The settings that the octets of a file spell.
pub fn read_settings(alloc: Global, octets: &[u8]) -> Result<Settings, Unusable> {
    match str::from_utf8(octets) {
        Ok(text) => Ok(Settings::read(alloc, text)?),
        Err(_) => Err(Unusable::NotText),
    }
}
