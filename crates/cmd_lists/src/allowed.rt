//! What may stand in a cell of a list, in words.

use gw_map::KeyContent;
use std::fmt;

/// What may stand in a cell.
#[derive(Clone, Copy)]
pub enum Allowed {
    /// A whole number, from the first to the second.
    Number(i64, i64),
    /// One of these words.
    Words(&'static [&'static str]),
    /// One of these words, which are kinds of points, or `control` or `outstation`.
    Kind(&'static [&'static str]),
    /// `yes` or `no`.
    YesOrNo,
    /// The position of an outstation, of so many.
    Outstation(u16),
    /// A text of so many characters.
    Text(usize),
}

impl Allowed {
    /// What may stand at a key of the settings, where there are so many outstations.
    pub(crate) fn at(content: KeyContent, outstations: u16) -> Allowed {
        match content {
            KeyContent::Number(first, last) => Allowed::Number(first, last),
            KeyContent::Outstation => Allowed::Outstation(outstations),
            KeyContent::Word(words) => Allowed::Words(words),
            KeyContent::Flag => Allowed::YesOrNo,
            _ => Allowed::Number(i64::MIN, i64::MAX),
        }
    }

    /// Whether it is a number.
    pub(crate) fn is_number(self) -> bool {
        matches!(self, Allowed::Number(..) | Allowed::Outstation(_))
    }
}

impl fmt::Display for Allowed {
    fn fmt<W: fmt::Write>(&self, f: &mut fmt::Formatter<W>) -> fmt::Result {
        match *self {
            Allowed::Number(first, last) => write_range(f, first, last),
            Allowed::Words(words) => write_words(f, words),
            Allowed::Kind(kinds) => write_kinds(f, kinds),
            Allowed::YesOrNo => f.write_str("yes or no"),
            Allowed::Outstation(0) => f.write_str("nothing, since the site has no outstation"),
            Allowed::Outstation(count) => write_outstations(f, count),
            Allowed::Text(most) => write_text(f, most),
        }
    }
}

fn write_range<W: fmt::Write>(f: &mut fmt::Formatter<W>, first: i64, last: i64) -> fmt::Result {
    write!(f, "a whole number from {first} to {last}")
}

fn write_outstations<W: fmt::Write>(f: &mut fmt::Formatter<W>, count: u16) -> fmt::Result {
    let last = count.saturating_sub(1);
    write!(
        f,
        "the position of an outstation in the site's file, 0 to {last}"
    )
}

fn write_text<W: fmt::Write>(f: &mut fmt::Formatter<W>, most: usize) -> fmt::Result {
    write!(f, "a text of at most {most} characters")
}

fn write_kinds<W: fmt::Write>(f: &mut fmt::Formatter<W>, kinds: &[&str]) -> fmt::Result {
    f.write_str("one of ")?;
    for kind in kinds {
        f.write_str(kind)?;
        f.write_str(", ")?;
    }
    f.write_str("control and outstation")
}

/// Writes words of which one may stand there.
fn write_words<W: fmt::Write>(f: &mut fmt::Formatter<W>, words: &[&str]) -> fmt::Result {
    if words.len() > 1 {
        f.write_str("one of ")?;
    }
    for (place, word) in words.iter().enumerate() {
        f.write_str(joint(place, words.len()))?;
        f.write_str(word)?;
    }
    Ok(())
}

/// What stands before the word at a place of a list of so many.
fn joint(place: usize, count: usize) -> &'static str {
    if place == 0 {
        ""
    } else if place == count.saturating_sub(1) {
        " and "
    } else {
        ", "
    }
}
