//! What a target has behind its path.

use crate::request::RequestFault;
use std::str;

/// The most octets of a query that are looked at: those of a longer one mean nothing.
const MOST_OCTETS: usize = 64;

/// The query of a target (RFC 3986, 3.4).
#[derive(Clone, Copy)]
pub struct Query {
    octets: [u8; MOST_OCTETS],
    /// How many octets it has; there may be more than are kept.
    length: usize,
}

impl Query {
    /// No query.
    pub fn none() -> Query {
        Query {
            octets: [0; MOST_OCTETS],
            length: 0,
        }
    }

    /// That of a target.
    pub fn of(target: &[u8]) -> Query {
        let mut query = Query::none();
        if let Some(mark) = target.iter().position(|octet| *octet == b'?') {
            query.keep(&target[mark + 1..]);
        }
        query
    }

    fn keep(&mut self, octets: &[u8]) {
        let kept = octets.len().min(MOST_OCTETS);
        self.octets[..kept].copy_from_slice(&octets[..kept]);
        self.length = octets.len();
    }

    /// The number that it has under a name; nothing where it is empty.
    ///
    /// # Errors
    ///
    /// `OddQuery` where it is anything else than the name, `=` and a number in decimal digits.
    pub fn number(&self, name: &str) -> Result<Option<u64>, RequestFault> {
        if self.length == 0 {
            return Ok(None);
        }
        match self.number_behind(name) {
            Some(number) => Ok(Some(number)),
            None => Err(RequestFault::OddQuery),
        }
    }

    /// The number behind a name and `=`, if that is all there is.
    fn number_behind(&self, name: &str) -> Option<u64> {
        let octets = self.octets.get(..self.length)?;
        let text = str::from_utf8(octets).ok()?;
        let digits = text.strip_prefix(name)?.strip_prefix('=')?;
        if digits.starts_with('+') {
            return None;
        }
        digits.parse().ok()
    }
}
