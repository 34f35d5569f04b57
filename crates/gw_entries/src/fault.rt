//! Why settings are refused.

use std::alloc::{AllocError, AllocFailed};
use std::fmt;
use thiserror::Error;

/// What can be wrong with settings.
#[derive(Clone, Copy, Debug, PartialEq, Error)]
pub enum Fault {
    /// A key that is required is not there.
    #[error("2 Missing")]
    Missing,
    /// The value is of another type.
    #[error("3 WrongType")]
    WrongType,
    /// A number is too small or too large, a text is none of the words or no rule, or there are too many entries.
    #[error("4 OutOfRange")]
    OutOfRange,
    /// The table has no such key.
    #[error("5 UnknownKey")]
    UnknownKey,
    /// Another point before has the same outstation, kind and index.
    #[error("6 DoubleSource")]
    DoubleSource,
    /// Another point or control before has the same address.
    #[error("7 DoubleAddress")]
    DoubleAddress,
    /// What is asked doesn't fit the kind.
    #[error("8 KindMismatch")]
    KindMismatch,
}

/// Where in the file something is wrong.
#[derive(Clone, Copy, Debug)]
pub enum Section {
    /// Outside all tables.
    Top,
    Station,
    Outstation,
    Point,
    Control,
}

impl Section {
    ghost use Rattle.std.specs.Prelude.{◌≡◌};
    ghost use Rattle.gw_entries.specs.Faults.{section_name};

    /// Its name.
    pub fn name(self) -> &'static str
        ensures { result.now ≡ section_name self }
    {
        match self {
            Section::Top => "top",
            Section::Station => "station",
            Section::Outstation => "outstation",
            Section::Point => "point",
            Section::Control => "control",
        }
    }
}

/// The name of a key.
#[derive(Debug, Drop)]
pub enum KeyName {
    /// One that the table may have, or `count` for the number of its entries.
    Known(&'static str),
    /// Another one.
    Unknown(String),
}

impl KeyName {
    ghost use Rattle.std.specs.Prelude.{◌≡◌};
    ghost use Rattle.gw_entries.specs.Faults.{key_text};

    pub fn as_str(&self) -> &str
        ensures { result.now ≡ key_text self.now }
    {
        match self {
            KeyName::Known(name) => *name,
            KeyName::Unknown(name) => name.as_str(),
        }
    }
}

/// A key of an entry. Entries are counted from 0; the station and the top have one entry.
#[derive(Debug, Drop)]
pub struct KeyPlace {
    pub section: Section,
    pub position: usize,
    pub key: KeyName,
}

impl fmt::Display for KeyPlace {
    fn fmt<W: fmt::Write>(&self, f: &mut fmt::Formatter<W>) -> fmt::Result {
        let section = self.section.name();
        let position = self.position;
        let key = self.key.as_str();
        write!(f, "{section} {position} {key}")
    }
}

/// Why settings are refused.
#[derive(Debug, Drop, Error)]
pub enum SettingsFault {
    /// The text is no TOML document: what is wrong with it, with line and column.
    #[error("1 Toml")]
    Toml(String),
    /// The first that is wrong with what the document says.
    #[error("{0} {1}")]
    Refused(Fault, KeyPlace),
    /// Memory ran out.
    #[error("9 Memory")]
    Memory,
}

impl From<AllocError> for SettingsFault {
    ghost use Rattle.std.specs.Prelude.{◌≡◌};
    ghost use Rattle.gw_entries.specs.declared.fault.SettingsFault.TheVariants.{Memory};

    ghost from_gives = { λ _ fault. fault ≡ Memory };

    fn from(_error: AllocError) -> SettingsFault {
        SettingsFault::Memory
    }
}

impl<T: Drop> From<AllocFailed<T>> for SettingsFault {
    ghost use Rattle.std.specs.Prelude.{◌≡◌};
    ghost use Rattle.gw_entries.specs.declared.fault.SettingsFault.TheVariants.{Memory};

    ghost from_gives = { λ _ fault. fault ≡ Memory };

    fn from(_error: AllocFailed<T>) -> SettingsFault {
        SettingsFault::Memory
    }
}

/// What is wrong with one table, and at which key.
#[derive(Clone, Copy, Debug, Error)]
#[error("{fault} {key}")]
pub struct KeyFault {
    pub fault: Fault,
    pub key: &'static str,
}

impl KeyFault {
    ghost use Rattle.std.specs.Prelude.{◌≡◌};
    ghost use Rattle.gw_entries.specs.Answers.{wrong_of};
    ghost use Rattle.gw_entries.specs.Complaints.{complaint};
    ghost use Rattle.gw_entries.specs.Faults.{refusal_of, refused};

    /// As what is wrong with an entry.
    pub fn at(self, section: Section, position: usize) -> SettingsFault
        ensures { refusal_of result ≡ refused (complaint section position (wrong_of self)) }
    {
        SettingsFault::Refused(
            self.fault,
            KeyPlace {
                section,
                position,
                key: KeyName::Known(self.key),
            },
        )
    }
}
