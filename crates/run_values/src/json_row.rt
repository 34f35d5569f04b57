//! Texts in JSON (RFC 8259).

use crate::shown::ShownPoint;
use std::fmt;

/// A text as the content of a JSON string.
#[derive(Clone, Copy)]
struct JsonText<'a>(&'a str);

impl<'a> fmt::Display for JsonText<'a> {
    fn fmt<W: fmt::Write>(&self, f: &mut fmt::Formatter<W>) -> fmt::Result {
        let text = self.0;
        if !text.contains(wants_escape) {
            return f.write_str(text);
        }
        for character in text.chars() {
            write_character(f, character)?;
        }
        Ok(())
    }
}

/// Whether a character has a meaning in JSON, or could have one in HTML or in a script.
fn wants_escape(character: char) -> bool {
    match character {
        '"' | '\\' | '<' | '>' | '&' | '\u{2028}' | '\u{2029}' => true,
        other => other.is_control(),
    }
}

/// Writes a character, where it has to be by its number.
fn write_character<W: fmt::Write>(f: &mut fmt::Formatter<W>, character: char) -> fmt::Result {
    if wants_escape(character) {
        write_escape(f, character)
    } else {
        f.write_char(character)
    }
}

/// Writes a character of the first plane by its number.
fn write_escape<W: fmt::Write>(f: &mut fmt::Formatter<W>, character: char) -> fmt::Result {
    let number = u32::from(character);
    write!(f, "\\u{number:04x}")
}

/// A number, or `null`.
#[derive(Clone, Copy)]
struct NumberOrNull(Option<u64>);

impl fmt::Display for NumberOrNull {
    fn fmt<W: fmt::Write>(&self, f: &mut fmt::Formatter<W>) -> fmt::Result {
        match self.0 {
            Some(number) => fmt::Display::fmt(&number, f),
            None => f.write_str("null"),
        }
    }
}

/// A point with its value as an object.
#[derive(Clone, Copy)]
pub(crate) struct JsonRow<'a>(pub(crate) ShownPoint<'a>);

impl<'a> fmt::Display for JsonRow<'a> {
    fn fmt<W: fmt::Write>(&self, f: &mut fmt::Formatter<W>) -> fmt::Result {
        let shown = &self.0;
        let (point, observation) = (shown.point, &shown.observation);
        let mark = if observation.value.is_number() {
            ""
        } else {
            "\""
        };
        write!(
            f,
            "{{\"outstation\":{},\"common_address\":{},\"address\":{},\"name\":\"{}\",\"type\":\"{}\",\
            \"value\":{mark}{}{mark},\"quality\":\"{}\",\"changed\":{},\"stamp\":{},\"stamp_doubtful\":{},\
            \"changes\":{}}}",
            point.outstation,
            point.object.common_address,
            point.object.address,
            JsonText(point.name.text.as_str()),
            observation.type_words,
            observation.value,
            observation.quality,
            NumberOrNull(shown.changed),
            NumberOrNull(observation.stamp),
            observation.is_doubtful,
            shown.changes
        )
    }
}
