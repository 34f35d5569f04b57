//! The words of a replay's lines and replies.

use cmd_text::{line_octets, number_8, number_64};
use gw_model::Memory;
use std::alloc::Global;

/// The text before the first space, and what follows that.
pub fn split_word(text: &[u8]) -> (&[u8], &[u8]) {
    let end = text.iter().position(|character| *character == b' ');
    match end.and_then(|end| text.split_at_checked(end)) {
        Some((word, rest)) => (word, rest.strip_prefix(b" ".as_slice()).unwrap_or(rest)),
        None => (text, &[]),
    }
}

/// What a line tells behind its verb: an outstation or a client, a moment, and what else.
#[derive(Clone, Copy)]
pub struct Told<'a> {
    pub place: u8,
    pub moment: u64,
    pub rest: &'a [u8],
}

impl<'a> Told<'a> {
    /// That of a text, if it begins so.
    pub fn read(text: &'a [u8]) -> Option<Told<'a>> {
        let (place, text) = split_word(text);
        let (moment, rest) = split_word(text);
        Some(Told {
            place: number_8(place)?,
            moment: number_64(moment)?,
            rest,
        })
    }
}

/// The octets behind a word in front of a text, if it has it and they are some.
pub fn octets_behind(alloc: Global, text: &[u8], word: &[u8]) -> Result<Option<Vec<u8>>, Memory> {
    match text.strip_prefix(word) {
        Some(octets) => line_octets(alloc, octets),
        None => Ok(None),
    }
}

/// The confirmation that a fragment is to get, by the reply to it.
pub fn confirmation(alloc: Global, reply: &[u8]) -> Result<Option<Vec<u8>>, Memory> {
    let (_, rest) = split_word(reply);
    match rest
        .strip_prefix(b"confirm ".as_slice())
        .and_then(|rest| rest.get(..5))
    {
        Some(octets) => line_octets(alloc, octets),
        None => Ok(None),
    }
}
