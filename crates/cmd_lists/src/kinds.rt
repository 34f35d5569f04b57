//! What rows of a list are of.

use cmd_profile::kind_word;
use gw_map::{Key, Section, keys_of};
use gw_model::Kind;

/// The kinds of points.
const KINDS: [Kind; 5] = [
    Kind::Binary,
    Kind::Output,
    Kind::Double,
    Kind::Counter,
    Kind::Analog,
];

/// What they are called.
pub(crate) const KIND_WORDS: [&str; 5] = ["binary", "output", "double", "counter", "analog"];

const SINGLE: [&str; 1] = ["single"];

const DOUBLE: [&str; 1] = ["double"];

const TOTAL: [&str; 1] = ["total"];

const MEASURED: [&str; 2] = ["scaled", "word"];

/// What a row is of.
#[derive(Clone, Copy)]
pub(crate) enum RowKind {
    /// An outstation, which it names.
    Outstation,
    /// A point of this kind.
    Point(Kind),
    /// A control.
    Control,
}

impl RowKind {
    /// That of a word.
    pub(crate) fn from_word(word: &str) -> Option<RowKind> {
        if word.eq_ignore_ascii_case("control") {
            return Some(RowKind::Control);
        }
        if word.eq_ignore_ascii_case("outstation") {
            return Some(RowKind::Outstation);
        }
        for kind in &KINDS {
            if word.eq_ignore_ascii_case(kind_word(*kind)) {
                return Some(RowKind::Point(*kind));
            }
        }
        None
    }

    /// What such a row is of, in words.
    pub(crate) fn words(self) -> &'static str {
        match self {
            RowKind::Outstation => "an outstation",
            RowKind::Point(_) => "a point",
            RowKind::Control => "a control",
        }
    }

    /// The keys of its table of the settings that stand in columns of their names.
    pub(crate) fn keys(self) -> &'static [Key] {
        match self {
            RowKind::Outstation | RowKind::Point(_) => keys_of(Section::Point),
            RowKind::Control => keys_of(Section::Control),
        }
    }

    /// Whether something may stand in a column of such a row.
    pub(crate) fn has(self, column: &str) -> bool {
        match column {
            "name" | "description" | "kind" | "common_address" | "outstation" => true,
            _ => match self {
                RowKind::Outstation => false,
                RowKind::Point(_) | RowKind::Control => {
                    self.keys().iter().any(|key| key.name == column)
                }
            },
        }
    }
}

/// How points of a kind can be shown; the first is how they are where nothing else is said.
pub(crate) fn shows_of(kind: Kind) -> &'static [&'static str] {
    match kind {
        Kind::Binary | Kind::Output => &SINGLE,
        Kind::Double => &DOUBLE,
        Kind::Counter => &TOTAL,
        Kind::Analog => &MEASURED,
    }
}
