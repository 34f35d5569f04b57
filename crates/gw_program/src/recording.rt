//! `gateway run --record`: a run that is taken down as lines of a replay.

use cmd_capture::{Capture, Kept};
use cmd_text::{RecordEnd, RecordEndCause};
use run_server::{
    Effects, Gate, Journal, JournalEvent, Observer, Place, Pumps, Reply, Step, StepFault, StepKind,
};
use std::sync::Wait;

/// A gate that holds nobody, and takes down each step.
#[derive(Clone, Copy)]
pub struct Recording<'a, R> {
    pub rt: &'a R,
    pub capture: &'a Capture,
}

impl<'a, R: Wait> Observer for Recording<'a, R> {
    type Kept = Kept;

    fn keep(&self, step: &Step) -> Kept {
        self.capture.keep(step)
    }

    fn step(
        &self,
        kept: Kept,
        number: u64,
        _kind: StepKind,
        reply: &Result<Reply, StepFault>,
        _effects: &Effects,
    ) {
        self.capture.put_step(self.rt, kept, number, *reply);
    }

    fn pumps(&self, pumps: &Pumps<'_>) {
        self.capture.put_pumps(self.rt, pumps);
    }
}

impl<'a, R: Wait> Gate for Recording<'a, R> {
    fn at(&self, _actor: usize, _place: Place) {}
}

/// Tells the journal that a recording ended before the gateway did.
pub fn tell_end<R: Wait>(rt: &R, journal: &Journal, wall: u64, ended: RecordEnd) {
    if ended.cause != RecordEndCause::Closed {
        journal.tell(rt, wall, JournalEvent::RecordingEnded(ended));
    }
}
