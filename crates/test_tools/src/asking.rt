//! Steps and answers as the lines of a replay.

use cmd_capture::{Instruction, push_reply, read_instruction};
use gw_threads::{Machine, Reply, Step, StepFault};
use std::alloc::Global;

/// What a step was answered.
pub type Answer = Result<Reply, StepFault>;

/// A call: the actor, and the how-manieth of its calls it is, from 1.
pub type Turn = (usize, u64);

/// The step that a line asks for, if it is a step's.
pub fn step_of(alloc: Global, line: &str) -> Option<Step> {
    match read_instruction(alloc, line.as_bytes()) {
        Ok(Some(Instruction::Make(step))) => Some(step),
        _ => None,
    }
}

/// The steps that the lines of a text ask for, if they are steps'.
pub fn steps_of(alloc: Global, lines: &str) -> Option<Vec<Step>> {
    let mut steps = Vec::new(alloc);
    for line in lines.lines() {
        steps.push(step_of(alloc, line)?).ok()?;
    }
    Some(steps)
}

/// What a machine answers a step.
pub fn answer_of<M: Machine>(machine: &mut M, step: &Step) -> Answer {
    machine.step(step)
}

/// What a machine answers the steps of these lines, as lines; if they are steps', where there is memory.
pub fn replies_of<M: Machine>(alloc: Global, machine: &mut M, lines: &str) -> Option<Vec<u8>> {
    let mut text = Vec::new(alloc);
    for line in lines.lines() {
        let step = step_of(alloc, line)?;
        push_reply(&mut text, machine.step(&step)).ok()?;
    }
    Some(text)
}

/// Whether answers have these lines.
pub fn has_text(alloc: Global, answers: &[Answer], wanted: &str) -> bool {
    match text_of(alloc, answers) {
        Some(text) => text.as_slice() == wanted.as_bytes(),
        None => false,
    }
}

/// The lines of answers, where there is memory.
pub fn text_of(alloc: Global, answers: &[Answer]) -> Option<Vec<u8>> {
    let mut text = Vec::new(alloc);
    for answer in answers {
        push_reply(&mut text, *answer).ok()?;
    }
    Some(text)
}
