//! The lines of steps that were answered.
ghost use Rattle.std.specs.Prelude.{◌≡◌, ◌++◌, [], IfOk, OnOk};
ghost use Rattle.cmd_replay.specs.Replies.{reply_line};
ghost use Rattle.cmd_capture.specs.Lines.{apdu_line, is_refused, unless_refused};

use crate::step_line::push_step;
use cmd_replay::push_reply;
use cmd_text::push_spaced;
use gw_model::Memory;
use gw_steps::{Pumps, Reply, Step, StepFault};
use iec_apci::Apdus;
use std::alloc::Global;

/// The lines of steps whose numbers follow one another, and those of the replies to them.
#[derive(Drop)]
pub struct Lines {
    /// The number of the first step.
    pub first: u64,
    /// How many steps they are. One that wasn't made for want of memory has no lines, but counts.
    pub count: u64,
    pub steps: Vec<u8>,
    pub answers: Vec<u8>,
}

impl Lines {
    /// No steps yet.
    fn new(alloc: Global, first: u64) -> Lines
        ensures numbered { (result.first ≡ first) × (result.count ≡ 0) }
        ensures empty { (result.steps.items ≡ []) × (result.answers.items ≡ []) }
    {
        Lines {
            first,
            count: 0,
            steps: Vec::new(alloc),
            answers: Vec::new(alloc),
        }
    }

    /// The lines of a step that has this one, and of the reply to it.
    pub fn of_step(
        alloc: Global,
        number: u64,
        line: Vec<u8>,
        reply: Result<Reply, StepFault>,
    ) -> Result<Lines, Memory>
        ensures numbered { IfOk result (λ lines. (lines.first ≡ number) × (lines.count ≡ 1)) }
        ensures steps { IfOk result (λ lines. lines.steps.items ≡ unless_refused reply line.items) }
        ensures answers { IfOk result (λ lines. lines.answers.items ≡ unless_refused reply (reply_line reply)) }
    {
        let mut lines = Lines::new(alloc, number);
        lines.count = 1;
        if !is_refused(reply) {
            push_reply(&mut lines.answers, reply)?;
            lines.steps = line;
        }
        Ok(lines)
    }

    /// The lines of pumps, and of the replies to them.
    pub fn of_pumps(alloc: Global, pumps: &Pumps<'_>) -> Result<Lines, Memory> {
        let mut line = Vec::new(alloc);
        let (client, moment) = (pumps.client, pumps.moment);
        push_step(&mut line, &Step::Pump { client, moment })?;
        let mut lines = Lines::new(alloc, pumps.first);
        for apdu in Apdus(pumps.apdus) {
            lines.add_apdu(&line, apdu)?;
        }
        if let Some(reply) = pumps.end {
            lines.add(&line, reply)?;
        }
        Ok(lines)
    }

    /// Adds a step that gave an APDU.
    fn add_apdu(&mut self, line: &[u8], apdu: &[u8]) -> Result<(), Memory> {
        self.count = self.count.saturating_add(1);
        self.steps.extend_from_slice(line)?;
        push_apdu(&mut self.answers, apdu)
    }

    /// Adds a step.
    fn add(&mut self, line: &[u8], reply: Result<Reply, StepFault>) -> Result<(), Memory> {
        self.count = self.count.saturating_add(1);
        if is_refused(reply) {
            return Ok(());
        }
        self.steps.extend_from_slice(line)?;
        push_reply(&mut self.answers, reply)
    }
}

/// Whether a step wasn't made for want of memory.
fn is_refused(reply: Result<Reply, StepFault>) -> bool
    ensures { result ≡ is_refused reply }
{
    matches!(reply, Err(StepFault::Memory))
}

/// Adds the line that tells an APDU.
fn push_apdu(text: &mut Vec<u8>, apdu: &[u8]) -> Result<(), Memory>
    ensures { OnOk result (text.new.items ≡ text.old.items ++ apdu_line apdu.now) }
{
    text.extend_from_slice(b"apdu")?;
    push_spaced(text, apdu)?;
    text.push(b'\n')?;
    Ok(())
}
