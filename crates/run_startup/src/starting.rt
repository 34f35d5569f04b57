//! What is told when the gateway starts.

use crate::source::Source;
use crate::system::Environment;
use cmd_line::VERSION;
use cmd_warnings::{Warning, warnings_of};
use gw_map::Settings;
use run_journal::{Doubt, Journal, JournalEvent};
use std::alloc::{AllocError, Global};
use std::env;
use std::sync::Wait;

/// What stands in front of a sentence where standard error goes to journald: the priority of an error.
const ERROR: &str = "<3>";

/// Tells a journal at a wall time that the gateway starts, and what reads like a slip in its settings.
pub fn tell_start<W: Wait>(
    alloc: Global,
    system: &W,
    journal: &Journal,
    wall: u64,
    settings: &Settings,
    source: Source<'_>,
    shows_values: bool,
) -> Result<(), AllocError> {
    journal.tell(
        system,
        wall,
        starting_event(alloc, settings, source, shows_values)?,
    );
    tell_doubts(alloc, system, journal, wall, settings)
}

/// Whether standard error goes to journald, which takes a priority in front of a line.
pub fn is_journal<S: Environment>(rt: &S) -> bool {
    env::var(rt, "JOURNAL_STREAM").is_ok()
}

/// What stands in front of a sentence on why nothing is served.
pub(crate) fn front_of<S: Environment>(rt: &S) -> &'static str {
    if is_journal(rt) { ERROR } else { "" }
}

/// That the gateway starts, with the settings of a file.
fn starting_event(
    alloc: Global,
    settings: &Settings,
    source: Source<'_>,
    shows_values: bool,
) -> Result<JournalEvent, AllocError> {
    Ok(JournalEvent::Started {
        version: VERSION,
        file: String::from_str(alloc, source.file)?,
        digest: source.digest,
        rows: settings.rows().len(),
        controls: settings.controls().len(),
        outstations: settings.outstations().len(),
        shows_values,
    })
}

/// Tells what reads like a slip in the settings.
fn tell_doubts<W: Wait>(
    alloc: Global,
    rt: &W,
    journal: &Journal,
    wall: u64,
    settings: &Settings,
) -> Result<(), AllocError> {
    for warning in &warnings_of(alloc, settings)? {
        if let Some(doubt) = doubt_of(*warning) {
            journal.tell(rt, wall, JournalEvent::Doubtful(doubt));
        }
    }
    Ok(())
}

/// What is told of a warning when the gateway starts, if anything.
fn doubt_of(warning: Warning) -> Option<Doubt> {
    match warning {
        Warning::ConnectWithoutPort { outstation, .. } => {
            Some(Doubt::ConnectWithoutPort { outstation })
        }
        Warning::SamePlace { first, second } => Some(Doubt::SamePlace { first, second }),
        _ => None,
    }
}
