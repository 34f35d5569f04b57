//! What is to be said of an ASDU from a client.
ghost use Rattle.std.specs.Prelude.{◌≡◌};
ghost use Rattle.gw_judge.specs.Judging.{judged, judged_command, refusal_of, IsWholeJudged};
ghost use Rattle.iec_command.specs.Commands.{IsWhole};

use crate::rules::{has_known_cause, has_object, is_addressed, is_execute};
use gw_map::Settings;
use iec_command::causes::{
    UNKNOWN_CAUSE, UNKNOWN_COMMON_ADDRESS, UNKNOWN_OBJECT_ADDRESS, UNKNOWN_TYPE,
};
use iec_command::{Command, CommandFault, read_command};

/// What is to be said of an ASDU from a client (IEC 60870-5-101, 7.2.3 and 7.3).
#[derive(Clone, Copy)]
pub enum Judged {
    /// The connection is closed: fewer than 6 octets, or a known type with a wrong count, SQ or length.
    Malformed,
    /// It is sent back.
    Refuse {
        /// The cause of transmission, from 44 to 47.
        cause: u8,
        /// It is an execute of which only the object is unknown.
        execute: bool,
    },
    /// It is a command for this station and what it has.
    Accepted(Command),
}

/// Judges an ASDU of a client, from its first octet to its last, by the settings.
pub fn judge(octets: &[u8], settings: &Settings) -> Judged
    ensures judged { result ≡ judged settings.now octets.now }
    ensures whole { IsWholeJudged result }
{
    match read_command(octets) {
        Ok(command) => judge_command(&command, settings),
        Err(CommandFault::UnknownType) => Judged::Refuse {
            cause: UNKNOWN_TYPE,
            execute: false,
        },
        Err(_) => Judged::Malformed,
    }
}

fn judge_command(command: &Command, settings: &Settings) -> Judged
    ensures judged { result ≡ judged_command settings.now command.now }
    ensures whole { IsWhole command.now → IsWholeJudged result }
{
    match refusal_of(command, settings) {
        None => Judged::Accepted(*command),
        Some(cause) => Judged::Refuse {
            cause,
            execute: cause == UNKNOWN_OBJECT_ADDRESS && is_execute(command),
        },
    }
}

/// With which cause of transmission a command is sent back, if it is.
fn refusal_of(command: &Command, settings: &Settings) -> Option<u8>
    ensures { result ≡ refusal_of settings.now command.now }
{
    if !has_known_cause(command) {
        return Some(UNKNOWN_CAUSE);
    }
    if !is_addressed(command, settings) {
        return Some(UNKNOWN_COMMON_ADDRESS);
    }
    if !has_object(command, settings) {
        return Some(UNKNOWN_OBJECT_ADDRESS);
    }
    None
}
