//! What is kept of a step before it is made.

use crate::step_line::{has_line, push_step};
use cmd_text::RecordEndCause;
use gw_steps::Step;
use std::alloc::Global;

/// What is kept of a step before it is made, since the core takes it by value.
#[derive(Drop)]
pub enum Kept {
    /// Nothing, since nothing is captured.
    Nothing,
    /// Its line.
    Line(Vec<u8>),
    /// No line, for this cause.
    Lost(RecordEndCause),
}

impl Kept {
    /// The line of a step, or why there is none.
    pub fn of(alloc: Global, step: &Step) -> Kept {
        if !has_line(step) {
            return Kept::Lost(RecordEndCause::NotWritten);
        }
        let mut line = Vec::new(alloc);
        match push_step(&mut line, step) {
            Ok(()) => Kept::Line(line),
            Err(_) => Kept::Lost(RecordEndCause::Memory),
        }
    }
}
