//! The lines of calls, as they were made, and as a recorder has kept them.

use std::io::Write;
use std::process::Abort;
use test_tools::{Answer, Entry, Kept, Step, Turn, fragment_of, has_line, push_reply, push_step};

/// Adds the lines of a call that was kept to a text.
pub fn push_entry<R: Abort>(rt: &R, text: &mut Vec<u8>, entry: &Entry) {
    let turn = (entry.actor, entry.ordinal);
    match entry.step.kept() {
        Kept::Fragment { response, moment } => {
            let step = fragment_of(response, *moment).expect(rt, "memory");
            push_call(rt, text, turn, &step, &entry.reply);
        }
        Kept::Other(step) => push_call(rt, text, turn, step, &entry.reply),
    }
}

/// Adds the lines of a call to a text: whose turn it was, the step, and the answer.
pub fn push_call<R: Abort>(rt: &R, text: &mut Vec<u8>, turn: Turn, step: &Step, answer: &Answer) {
    let (actor, ordinal) = turn;
    write!(text, "{actor} {ordinal} ").expect(rt, "memory");
    if !has_line(step) {
        rt.panic("a step has no line");
    }
    push_step(text, step).expect(rt, "memory");
    push_reply(text, *answer).expect(rt, "memory");
}
