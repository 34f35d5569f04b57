//! Names at the ends of lines.

use crate::escaped::Escaped;
use std::fmt;

/// Writes the name of what a line is of, behind it and two spaces apart.
pub fn write_behind<W: fmt::Write>(f: &mut fmt::Formatter<W>, name: Escaped<'_>) -> fmt::Result {
    write!(f, "  {name}")
}

/// The name of what a line is of, behind it; nothing where it has none.
#[derive(Clone, Copy)]
pub struct Behind<'a>(pub Option<&'a str>);

impl<'a> fmt::Display for Behind<'a> {
    fn fmt<W: fmt::Write>(&self, f: &mut fmt::Formatter<W>) -> fmt::Result {
        match self.0 {
            Some(name) => write_behind(f, Escaped::plain(name)),
            None => Ok(()),
        }
    }
}
