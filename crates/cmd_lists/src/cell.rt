//! What stands in a cell.

use gw_map::KeyContent;
use std::fmt;

/// A key of a table of the settings, with what stands there.
#[derive(Clone, Copy)]
pub(crate) struct KeyValue {
    pub(crate) key: &'static str,
    pub(crate) value: CellValue,
}

/// What stands in a cell.
#[derive(Clone, Copy)]
pub(crate) enum CellValue {
    /// A whole number.
    Number(i64),
    /// One of the words that may stand there.
    Word(&'static str),
    /// `yes` or `no`.
    Flag(bool),
}

impl CellValue {
    /// What a text says, where this may stand, and there are so many outstations.
    pub(crate) fn read(content: KeyContent, text: &str, outstations: u16) -> Option<CellValue> {
        match content {
            KeyContent::Number(first, last) => read_number(text, first, last),
            KeyContent::Outstation => read_number(text, 0, i64::from(outstations) - 1),
            KeyContent::Word(words) => read_word(text, words),
            KeyContent::Flag => read_flag(text),
            _ => None,
        }
    }
}

/// The number that a text is, from the first to the last.
fn read_number(text: &str, first: i64, last: i64) -> Option<CellValue> {
    match text.parse::<i64>() {
        Ok(number) if first <= number && number <= last => Some(CellValue::Number(number)),
        _ => None,
    }
}

/// The word that a text is, in large or small letters.
fn read_word(text: &str, words: &'static [&'static str]) -> Option<CellValue> {
    for word in words {
        if text.eq_ignore_ascii_case(word) {
            return Some(CellValue::Word(word));
        }
    }
    None
}

/// What a text affirms or denies, also as the settings do, and as spreadsheets do.
fn read_flag(text: &str) -> Option<CellValue> {
    if text.eq_ignore_ascii_case("yes") || text.eq_ignore_ascii_case("true") {
        Some(CellValue::Flag(true))
    } else if text.eq_ignore_ascii_case("no") || text.eq_ignore_ascii_case("false") {
        Some(CellValue::Flag(false))
    } else {
        None
    }
}

/// As it stands in the settings.
impl fmt::Display for CellValue {
    fn fmt<W: fmt::Write>(&self, f: &mut fmt::Formatter<W>) -> fmt::Result {
        match *self {
            CellValue::Number(number) => fmt::Display::fmt(&number, f),
            CellValue::Word(word) => write_quoted(f, word),
            CellValue::Flag(flag) => fmt::Display::fmt(&flag, f),
        }
    }
}

fn write_quoted<W: fmt::Write>(f: &mut fmt::Formatter<W>, word: &str) -> fmt::Result {
    write!(f, "\"{word}\"")
}

/// The number at a key; 0 where there is none.
pub(crate) fn number_at(keys: &[KeyValue], key: &str) -> i64 {
    for pair in keys {
        if pair.key == key {
            if let CellValue::Number(number) = pair.value {
                return number;
            }
        }
    }
    0
}

/// The word at a key, if there is one.
pub(crate) fn word_at(keys: &[KeyValue], key: &str) -> Option<&'static str> {
    for pair in keys {
        if pair.key == key {
            if let CellValue::Word(word) = pair.value {
                return Some(word);
            }
        }
    }
    None
}
