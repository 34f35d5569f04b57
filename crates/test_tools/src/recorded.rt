//! What a recorder has kept.

use crate::asking::{Answer, answer_of, text_of};
use crate::cores::Recorder;
use dnp_app::KeptResponse;
use gw_hub::{Hub, Machine};
use gw_threads::{Entry, Kept, KeptStep, Step};
use std::alloc::Global;

/// The calls that a recorder has kept since a base, before which the actors had made so many; nothing if it is off, or has
/// other counts. A hub that is the base answers their steps as they were answered; nothing if it doesn't.
pub fn entries_since<'a>(
    alloc: Global,
    recorder: &'a Recorder,
    counts: &[u64],
) -> Option<&'a [Entry]> {
    let dump = recorder.dump()?;
    let mut hub = dump.base.copy().ok()?;
    let is_so = dump.counts == counts && answers_again(alloc, &mut hub, dump.entries);
    drop(hub);
    if is_so { Some(dump.entries) } else { None }
}

/// Whether a hub answers the steps of calls as they were answered.
fn answers_again(alloc: Global, hub: &mut Hub, entries: &[Entry]) -> bool {
    for entry in entries {
        match answer_again(hub, &entry.step) {
            Some(answer) if is_same(alloc, answer, entry.reply) => {}
            _ => return false,
        }
    }
    true
}

/// What a hub answers a step that was kept, if there is memory.
fn answer_again(hub: &mut Hub, step: &KeptStep) -> Option<Answer> {
    match step.kept() {
        Kept::Fragment { response, moment } => {
            let step = fragment_of(response, *moment)?;
            Some(answer_of(hub, &step))
        }
        Kept::Other(step) => Some(answer_of(hub, step)),
    }
}

/// The step of a fragment that was kept, if there is memory.
pub fn fragment_of(response: &KeptResponse, moment: u64) -> Option<Step> {
    let response = response.response().ok()?;
    Some(Step::Fragment { response, moment })
}

/// Whether two answers have the same line.
fn is_same(alloc: Global, found: Answer, wanted: Answer) -> bool {
    match (text_of(alloc, &[found]), text_of(alloc, &[wanted])) {
        (Some(found), Some(wanted)) => found.as_slice() == wanted.as_slice(),
        _ => false,
    }
}
