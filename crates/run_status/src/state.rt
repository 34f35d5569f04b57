//! How it is with an outstation and with a client, in words.

use crate::indications::{trouble_in, write_names};
use crate::status::{ClientStatus, OutstationStatus};
use std::fmt;

/// How it is with an outstation: the first of these that is so, from the end.
#[derive(Clone, Copy, PartialEq)]
pub enum OutstationState {
    /// It has answered since it connected, and its indications tell of no trouble.
    AllRight,
    /// Its indications tell of trouble.
    Trouble,
    /// It still asks for the time after it was written, and isn't polled while it does.
    ClockNotSet,
    /// A request wasn't answered in time, and nothing came since.
    NotAnswering,
    /// It has answered nothing since it connected.
    NoAnswerYet,
    /// No connection stands.
    NotConnected,
}

impl OutstationState {
    /// Whether all is right.
    pub fn is_all_right(self) -> bool {
        matches!(self, OutstationState::AllRight)
    }

    /// The same in words, as far as they are the same for each outstation.
    fn words(self) -> &'static str {
        match self {
            OutstationState::AllRight => "connected, all right",
            OutstationState::Trouble => "trouble it tells itself: ",
            OutstationState::ClockNotSet => "not polled: its clock can't be set",
            OutstationState::NotAnswering => "connected, not answering",
            OutstationState::NoAnswerYet => "connected, no answer yet",
            OutstationState::NotConnected => "not connected",
        }
    }
}

/// Writes how it is with an outstation, in words.
pub fn write_outstation_words<W: fmt::Write>(
    f: &mut fmt::Formatter<W>,
    outstation: &OutstationStatus,
) -> fmt::Result {
    f.write_str(outstation.state.words())?;
    match outstation.state {
        OutstationState::Trouble => write_names(f, trouble_in(outstation.indications)),
        OutstationState::NotConnected => write_reason(f, ": ", outstation.reason.as_str()),
        OutstationState::AllRight
        | OutstationState::ClockNotSet
        | OutstationState::NotAnswering
        | OutstationState::NoAnswerYet => Ok(()),
    }
}

/// Writes why the connection before ended, where one did and the one that stands has no answer.
pub fn write_before<W: fmt::Write>(
    f: &mut fmt::Formatter<W>,
    outstation: &OutstationStatus,
) -> fmt::Result {
    match outstation.state {
        OutstationState::NotAnswering | OutstationState::NoAnswerYet => write_reason(
            f,
            "; the connection before ended: ",
            outstation.reason.as_str(),
        ),
        _ => Ok(()),
    }
}

/// Writes words and a reason, if there is one.
fn write_reason<W: fmt::Write>(
    f: &mut fmt::Formatter<W>,
    words: &str,
    reason: &str,
) -> fmt::Result {
    if reason.is_empty() {
        return Ok(());
    }
    f.write_str(words)?;
    f.write_str(reason)
}

/// How it is with a place for a client.
#[derive(Clone, Copy)]
pub enum ClientState {
    /// Nobody has it.
    Free,
    /// A client is connected, and transfers no data.
    ConnectedOnly,
    /// A client transfers data.
    TransfersData,
    /// A client transfers data, and observations for it were dropped in the last minute: so many.
    ReadsTooSlowly(u64),
}

impl ClientState {
    /// Whether a client transfers data.
    pub fn transfers(self) -> bool {
        matches!(
            self,
            ClientState::TransfersData | ClientState::ReadsTooSlowly(_)
        )
    }
}

/// Writes how it is with a place for a client, in words.
pub fn write_client_words<W: fmt::Write>(
    f: &mut fmt::Formatter<W>,
    client: &ClientStatus,
) -> fmt::Result {
    let words = match client.state {
        ClientState::Free => "free",
        ClientState::ConnectedOnly => "connected only",
        ClientState::TransfersData => "transfers data",
        ClientState::ReadsTooSlowly(count) => return write_too_slow(f, count),
    };
    f.write_str(words)
}

/// Writes that a client reads too slowly.
fn write_too_slow<W: fmt::Write>(f: &mut fmt::Formatter<W>, count: u64) -> fmt::Result {
    write!(f, "reads too slowly: {count} dropped in the last minute")
}
