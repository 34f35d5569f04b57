//! Texts that stand in other texts.

use std::fmt;

/// A text as it stands in another. Its control characters are written as Rust escapes them, so that it makes no line of its own
/// and moves no cursor.
#[derive(Clone, Copy)]
pub struct Escaped<'a> {
    text: &'a str,
    /// What stands for characters that have a meaning of their own there.
    escapes: &'static [(char, &'static str)],
    /// What the backslash of a control character's escape needs in front.
    before_backslash: &'static str,
}

/// The escapes of HTML; that of the apostrophe is the first.
const OF_HTML: [(char, &str); 5] = [
    ('\'', "&#39;"),
    ('&', "&amp;"),
    ('<', "&lt;"),
    ('>', "&gt;"),
    ('"', "&quot;"),
];

/// Those of the value of a label of Prometheus.
const OF_LABEL: [(char, &str); 3] = [('\\', "\\\\"), ('"', "\\\""), ('\n', "\\n")];

impl<'a> Escaped<'a> {
    /// A text as HTML shows it, between tags and in an attribute's quotation marks.
    pub fn html(text: &'a str) -> Escaped<'a> {
        Escaped {
            text,
            escapes: &OF_HTML,
            before_backslash: "",
        }
    }

    /// Words as HTML shows them between tags, where apostrophes may stay.
    pub fn html_words(text: &'a str) -> Escaped<'a> {
        Escaped {
            text,
            escapes: &OF_HTML[1..],
            before_backslash: "",
        }
    }

    /// A text as a line has it: its control characters alone are escaped.
    pub fn plain(text: &'a str) -> Escaped<'a> {
        Escaped {
            text,
            escapes: &[],
            before_backslash: "",
        }
    }

    /// A text as the value of a label of Prometheus, without its quotation marks. Of the backslashes of
    /// `escape_default` each is one of the value itself, but that of a line feed.
    pub fn label(text: &'a str) -> Escaped<'a> {
        Escaped {
            text,
            escapes: &OF_LABEL,
            before_backslash: "\\",
        }
    }

    /// What stands for a character, if it has a meaning of its own.
    fn escape_of(self, character: char) -> Option<&'static str> {
        for (special, escape) in self.escapes {
            if *special == character {
                return Some(escape);
            }
        }
        None
    }

    /// Writes what stands for a character.
    fn write<W: fmt::Write>(self, f: &mut fmt::Formatter<W>, character: char) -> fmt::Result {
        match self.escape_of(character) {
            Some(escape) => f.write_str(escape),
            None if character.is_control() => {
                write!(f, "{}{}", self.before_backslash, character.escape_default())
            }
            None => f.write_char(character),
        }
    }
}

impl<'a> fmt::Display for Escaped<'a> {
    fn fmt<W: fmt::Write>(&self, f: &mut fmt::Formatter<W>) -> fmt::Result {
        for character in self.text.chars() {
            self.write(f, character)?;
        }
        Ok(())
    }
}
