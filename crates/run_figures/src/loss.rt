//! Connections that ended, as they are told.

use crate::cause::{Cause, Reason};
use crate::counted::AndMore;
use crate::instant::Since;
use std::fmt;

/// The end of a connection, and of those before it that are told with it.
#[derive(Clone, Copy)]
pub struct Loss {
    /// Why it ended.
    pub cause: Cause,
    /// How many ended for this reason in a row, this one included.
    pub count: u64,
    /// When the first of them did, in milliseconds since 1970 in UTC.
    pub since: u64,
    /// When this one did.
    pub at: u64,
    /// How many before them ended for other reasons and weren't told.
    pub left_out: u64,
}

impl Loss {
    /// The end of one connection, at a time.
    pub(crate) fn of_one(cause: Cause, at: u64) -> Loss {
        Loss {
            cause,
            count: 1,
            since: at,
            at,
            left_out: 0,
        }
    }
}

impl fmt::Display for Loss {
    fn fmt<W: fmt::Write>(&self, f: &mut fmt::Formatter<W>) -> fmt::Result {
        let Loss {
            cause,
            left_out,
            ..
        } = *self;
        let more = AndMore(left_out);
        if self.count > 1 {
            write_again(f, self, more)
        } else {
            write!(f, "{cause}{more}")
        }
    }
}

/// Writes that a connection ended again, how often they did, and since when.
fn write_again<W: fmt::Write>(
    f: &mut fmt::Formatter<W>,
    loss: &Loss,
    more: AndMore,
) -> fmt::Result {
    let Loss {
        cause,
        count,
        since,
        at,
        ..
    } = *loss;
    let (ended, reason) = (cause.in_a_word(), Reason(cause));
    let since = Since { since, now: at };
    write!(
        f,
        "{ended} again: {reason} ({count} times since {since}){more}"
    )
}
