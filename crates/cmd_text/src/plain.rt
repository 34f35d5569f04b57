//! Texts from outside, on one line.

use crate::escaped::Escaped;
use std::fmt;

/// A text that came from outside, as a line has it.
#[derive(Clone, Copy)]
pub struct Plain<'a>(pub &'a str);

impl<'a> fmt::Display for Plain<'a> {
    fn fmt<W: fmt::Write>(&self, f: &mut fmt::Formatter<W>) -> fmt::Result {
        fmt::Display::fmt(&Escaped::plain(self.0), f)
    }
}
