//! Numbers of things.

use std::fmt;

/// So many of something, as `1 request` or `3 requests`.
#[derive(Clone, Copy)]
pub struct Counted(pub u64, pub &'static str);

impl fmt::Display for Counted {
    fn fmt<W: fmt::Write>(&self, f: &mut fmt::Formatter<W>) -> fmt::Result {
        let Counted(count, name) = *self;
        let ending = if count == 1 { "" } else { "s" };
        write!(f, "{count} {name}{ending}")
    }
}

/// That so many more weren't told, as `, and 12 more`; nothing where none was left out.
#[derive(Clone, Copy)]
pub struct AndMore(pub u64);

impl fmt::Display for AndMore {
    fn fmt<W: fmt::Write>(&self, f: &mut fmt::Formatter<W>) -> fmt::Result {
        match self.0 {
            0 => Ok(()),
            count => write!(f, ", and {count} more"),
        }
    }
}
