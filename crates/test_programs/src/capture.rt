//! Tests of what is written, and of how a capture ends.

use crate::checks::{alike, same, same_list, same_text};
use cmd_capture::{Capture, Instruction, Kept, Lines, Pumps, push_step, read_instruction};
use cmd_text::{RecordEnd, RecordEndCause};
use run_shared::{Apdu, Reply, Step, StepFault};
use std::alloc::{AllocError, Global};
use std::io::{self, ErrorKind, Write};
use std::process::Abort;
use std::sync::Wait;
use std::test::Fail;
use std::thread;

/// Each kind of step, as a line.
const STEPS: &[&str] = &[
    "up 31 0",
    "down 0 18446744073709551615",
    "frag 1 5 F0 82 00 00 02 01 17 01 05 81",
    "poll 2 1000 1700000000000",
    "open 7 1",
    "close 0 2",
    "frame 3 4 68 04 07 00 00 00",
    "frame 3 4 68 04 01 00 FE FF",
    "frame 3 4 68 0E FE FF 02 00 2D 01 06 00 01 00 89 13 00 81",
    "pump 255 10",
    "tick 99",
];

/// The line of the step that a line asks for.
fn line_again<R: Abort + AllocGlobal>(rt: &R, line: &str) -> Vec<u8> {
    match read_instruction(rt.alloc(), line.as_bytes()) {
        Ok(Some(Instruction::Make(step))) => line_of(rt, &step),
        _ => rt.panic("a line is no step"),
    }
}

/// The line of a step.
fn line_of<R: Abort + AllocGlobal>(rt: &R, step: &Step) -> Vec<u8> {
    match Kept::of(rt.alloc(), step) {
        Kept::Line(line) => line,
        _ => rt.panic("a step has no line"),
    }
}

#[test]
fn steps_are_read_again(rt: HostRuntime) -> Result<(), Fail> {
    for line in STEPS {
        let wanted = format!(in rt.alloc(); "{line}\n")?;
        same_list(&rt, line_again(&rt, line).as_slice(), wanted.as_bytes());
    }
    Ok(())
}

/// STARTDT con and an I format, one after the other.
const APDUS: &[u8] = &[
    0x68, 0x04, 0x0B, 0x00, 0x00, 0x00, 0x68, 0x05, 0x00, 0x00, 0x00, 0x00, 0x64,
];

/// The lines of the replies to the pumps that gave them.
const APDU_LINES: &str = "apdu 68 04 0B 00 00 00\napdu 68 05 00 00 00 00 64\n";

/// How a run of pumps may end: how many pumps it has then, of which how many have a line, and the last line of an
/// answer.
const ENDS: &[(Option<Result<Reply, StepFault>>, u64, usize, &str)] = &[
    (None, 2, 2, ""),
    (Some(Ok(Reply::Nothing)), 3, 3, "nothing\n"),
    (Some(Err(StepFault::NotUp)), 3, 3, "fault 3 NotUp\n"),
    (Some(Err(StepFault::Memory)), 3, 2, ""),
];

#[test]
fn pumps_are_taken_apart(rt: HostRuntime) -> Result<(), Fail> {
    for (end, count, told, last) in ENDS {
        let pumps = Pumps {
            first: 7,
            client: 3,
            moment: 40,
            apdus: APDUS,
            end: *end,
        };
        let lines = Lines::of_pumps(rt.alloc(), &pumps)?;
        let answers = format!(in rt.alloc(); "{APDU_LINES}{last}")?;
        same(&rt, &(lines.first, lines.count), &(7, *count));
        same_list(
            &rt,
            lines.steps.as_slice(),
            pump_lines(rt.alloc(), *told)?.as_slice(),
        );
        same_list(&rt, lines.answers.as_slice(), answers.as_bytes());
    }
    Ok(())
}

/// So many lines of the pump.
fn pump_lines(alloc: Global, count: usize) -> Result<Vec<u8>, AllocError> {
    let mut lines = Vec::new(alloc);
    for _ in 0..count {
        lines.extend_from_slice(b"pump 3 40\n")?;
    }
    Ok(lines)
}

/// A file that takes so many octets.
#[derive(Drop)]
struct File {
    octets: Vec<u8>,
    most: usize,
}

impl File {
    fn new(alloc: Global, most: usize) -> File {
        File {
            octets: Vec::new(alloc),
            most,
        }
    }
}

impl Write for File {
    fn write(&mut self, buf: &[u8]) -> io::Result<usize> {
        let room = self.most.saturating_sub(self.octets.len()).min(buf.len());
        if room == 0 {
            return Err(ErrorKind::StorageFull.into());
        }
        self.octets.extend_from_slice(&buf[..room])?;
        Ok(room)
    }

    fn flush(&mut self) -> io::Result<()> {
        Ok(())
    }
}

/// Hands over a tick at this moment, which was made with this number and reply.
fn put_tick<R: Wait>(
    rt: &R,
    capture: &Capture,
    number: u64,
    moment: u64,
    reply: Result<Reply, StepFault>,
) {
    let kept = capture.keep(&Step::Tick { moment });
    capture.put_step(rt, kept, number, reply);
}

/// A reply to a tick.
const TICKED: Result<Reply, StepFault> = Ok(Reply::Ticked { closed: 0x81 });

/// Ticks as workers hand them over: the number, the moment and the reply.
const TICKS: &[(u64, u64, Result<Reply, StepFault>)] = &[
    (5, 50, TICKED),
    (1, 10, TICKED),
    (3, 30, Err(StepFault::Memory)),
    (2, 20, Err(StepFault::Spent)),
    (9, 90, TICKED),
    (11, 110, TICKED),
];

const STEPS_IN_ORDER: &str =
    "tick 10\ntick 20\ntick 50\npump 0 60\npump 0 60\npump 0 60\ntick 90\n";

const ANSWERS_IN_ORDER: &str = "ticked 0 7\nfault 6 Spent\nticked 0 7\n\
apdu 68 04 0B 00 00 00\napdu 68 05 00 00 00 00 64\nnothing\nticked 0 7\n";

/// The run of pumps between them.
const RUN: Pumps<'_> = Pumps {
    first: 6,
    client: 0,
    moment: 60,
    apdus: APDUS,
    end: Some(Ok(Reply::Nothing)),
};

#[test]
fn steps_are_written_in_order(rt: HostRuntime) -> Result<(), Fail> {
    let capture = Capture::new(rt.alloc(), 1)?;
    for (number, moment, reply) in TICKS {
        put_tick(&rt, &capture, *number, *moment, *reply);
    }
    put_tick(&rt, &capture, 4, 40, Err(StepFault::Memory));
    capture.put_pumps(&rt, &RUN);
    capture.close(&rt);
    check_written(&rt, &capture, STEPS_IN_ORDER, ANSWERS_IN_ORDER);
    Ok(())
}

/// A capture is written as these texts, up to step 10, which nobody handed over.
fn check_written<R: Abort + Wait + AllocGlobal>(
    rt: &R,
    capture: &Capture,
    wanted_steps: &str,
    wanted_answers: &str,
) {
    let (mut steps, mut answers) = (
        File::new(rt.alloc(), usize::MAX),
        File::new(rt.alloc(), usize::MAX),
    );
    let ended = capture.write_on(rt, &mut steps, &mut answers);
    same_list(rt, steps.octets.as_slice(), wanted_steps.as_bytes());
    same_list(rt, answers.octets.as_slice(), wanted_answers.as_bytes());
    alike(
        rt,
        &ended,
        &RecordEnd {
            step: 10,
            cause: RecordEndCause::Closed,
        },
    );
}

/// What is handed over, and how the capture ends.
#[derive(Clone, Copy)]
struct Case {
    megabytes: u64,
    /// How many octets each line has, and how many lines there are.
    length: usize,
    count: u64,
    /// How many octets each file takes.
    most_steps: usize,
    most_answers: usize,
    ended: RecordEnd,
    /// How many octets are written of the lines.
    written: usize,
}

const CASES: &[Case] = &[
    Case {
        megabytes: 1,
        length: 400_000,
        count: 3,
        most_steps: usize::MAX,
        most_answers: usize::MAX,
        ended: RecordEnd {
            step: 3,
            cause: RecordEndCause::Full { megabytes: 1 },
        },
        written: 800_000,
    },
    Case {
        megabytes: 100,
        length: 5_400_000,
        count: 4,
        most_steps: usize::MAX,
        most_answers: usize::MAX,
        ended: RecordEnd {
            step: 3,
            cause: RecordEndCause::QueueFull,
        },
        written: 10_800_000,
    },
    Case {
        megabytes: 1,
        length: 1,
        count: 65_537,
        most_steps: usize::MAX,
        most_answers: usize::MAX,
        ended: RecordEnd {
            step: 65_537,
            cause: RecordEndCause::QueueFull,
        },
        written: 65_536,
    },
    Case {
        megabytes: 1,
        length: 5,
        count: 3,
        most_steps: 12,
        most_answers: usize::MAX,
        ended: RecordEnd {
            step: 1,
            cause: RecordEndCause::NotWritten,
        },
        written: 12,
    },
    Case {
        megabytes: 1,
        length: 5,
        count: 3,
        most_steps: usize::MAX,
        most_answers: 8,
        ended: RecordEnd {
            step: 1,
            cause: RecordEndCause::NotWritten,
        },
        written: 15,
    },
];

#[test]
fn captures_end(rt: HostRuntime) -> Result<(), Fail> {
    for case in CASES {
        check_case(&rt, case)?;
    }
    Ok(())
}

/// A capture ends as a case says, and nothing is kept for it then.
fn check_case<R: Abort + Wait + AllocGlobal>(rt: &R, case: &Case) -> Result<(), Fail> {
    let capture = Capture::new(rt.alloc(), case.megabytes)?;
    for number in 1..=case.count {
        let line = vec![in rt.alloc(); b'a'; case.length]?;
        capture.put_step(rt, Kept::Line(line), number, Ok(Reply::Done));
    }
    capture.close(rt);
    let mut steps = File::new(rt.alloc(), case.most_steps);
    let mut answers = File::new(rt.alloc(), case.most_answers);
    let ended = capture.write_on(rt, &mut steps, &mut answers);
    alike(rt, &ended, &case.ended);
    same(rt, &steps.octets.len(), &case.written);
    assert!(rt; matches!(capture.keep(&Step::Tick { moment: 0 }), Kept::Nothing));
    Ok(())
}

#[test]
fn step_without_line(rt: HostRuntime) -> Result<(), Fail> {
    let capture = Capture::new(rt.alloc(), 1)?;
    put_tick(&rt, &capture, 1, 10, TICKED);
    let step = Step::Frame {
        client: 0,
        apdu: Apdu::S { nr: 0x8000 },
        moment: 20,
    };
    let kept = capture.keep(&step);
    capture.put_step(&rt, kept, 2, Ok(Reply::Taken));
    assert!(rt; !capture.is_on());
    let (ended, steps) = ended_of(&rt, &capture);
    alike(
        &rt,
        &ended,
        &RecordEnd {
            step: 2,
            cause: RecordEndCause::NotWritten,
        },
    );
    same_list(&rt, steps.as_slice(), b"tick 10\n".as_slice());
    Ok(())
}

/// How a capture ends, and the lines of its steps.
fn ended_of<R: Wait + AllocGlobal>(rt: &R, capture: &Capture) -> (RecordEnd, Vec<u8>) {
    let mut steps = File::new(rt.alloc(), usize::MAX);
    let mut answers = File::new(rt.alloc(), usize::MAX);
    let ended = capture.write_on(rt, &mut steps, &mut answers);
    (ended, steps.octets)
}

/// How many ticks are handed over at once: two times as many may not wait.
const TICKS_AT_ONCE: u64 = 40_000;

/// A file at whose first flush more is handed over, and at whose second its capture is closed.
#[derive(Drop)]
struct Feeding<'a, R: Wait> {
    rt: &'a R,
    capture: Option<&'a Capture>,
    octets: usize,
    /// How many octets it had at each flush.
    at_flushes: Vec<usize>,
}

impl<'a, R: Wait> Feeding<'a, R> {
    fn new(rt: &'a R, alloc: Global, capture: Option<&'a Capture>) -> Feeding<'a, R> {
        Feeding {
            rt,
            capture,
            octets: 0,
            at_flushes: Vec::new(alloc),
        }
    }
}

impl<'a, R: Wait> Write for Feeding<'a, R> {
    fn write(&mut self, buf: &[u8]) -> io::Result<usize> {
        self.octets = self.octets.saturating_add(buf.len());
        Ok(buf.len())
    }

    fn flush(&mut self) -> io::Result<()> {
        self.at_flushes.push(self.octets)?;
        if let Some(capture) = self.capture {
            match self.at_flushes.len() {
                1 => put_ticks(self.rt, capture, TICKS_AT_ONCE + 1),
                2 => capture.close(self.rt),
                _ => {}
            }
        }
        Ok(())
    }
}

/// Hands over ticks at the moment 0 from a number on.
fn put_ticks<R: Wait>(rt: &R, capture: &Capture, first: u64) {
    for number in first..first.saturating_add(TICKS_AT_ONCE) {
        put_tick(rt, capture, number, 0, TICKED);
    }
}

#[test]
fn flushed_where_nothing_waits(rt: HostRuntime) -> Result<(), Fail> {
    let capture = Capture::new(rt.alloc(), 1)?;
    put_ticks(&rt, &capture, 1);
    let mut steps = Feeding::new(&rt, rt.alloc(), Some(&capture));
    let mut answers = Feeding::new(&rt, rt.alloc(), None);
    let ended = capture.write_on(&rt, &mut steps, &mut answers);
    alike(
        &rt,
        &ended,
        &RecordEnd {
            step: 80_001,
            cause: RecordEndCause::Closed,
        },
    );
    same_list(
        &rt,
        steps.at_flushes.as_slice(),
        [280_000, 560_000, 560_000].as_slice(),
    );
    same_list(
        &rt,
        answers.at_flushes.as_slice(),
        [440_000, 880_000, 880_000].as_slice(),
    );
    Ok(())
}

/// How a capture ended, in words.
const ENDINGS: &[(RecordEndCause, &str)] = &[
    (
        RecordEndCause::QueueFull,
        "too many steps waited to be written",
    ),
    (RecordEndCause::NotWritten, "it couldn't be written"),
    (RecordEndCause::Full { megabytes: 100 }, "it has 100 MB"),
    (RecordEndCause::Memory, "no memory"),
    (RecordEndCause::Closed, "the gateway ends"),
];

#[test]
fn endings_are_told(rt: HostRuntime) -> Result<(), Fail> {
    for (cause, words) in ENDINGS {
        let ended = RecordEnd {
            step: 17,
            cause: *cause,
        };
        let text = format!(in rt.alloc(); "{ended}")?;
        let wanted = format!(in rt.alloc(); "recording ended at step 17: {words}")?;
        same_text(&rt, text.as_str(), wanted.as_str());
    }
    Ok(())
}

#[test]
fn nothing_is_captured(rt: HostRuntime) -> Result<(), Fail> {
    let capture = Capture::off(rt.alloc())?;
    put_tick(&rt, &capture, 1, 10, TICKED);
    capture.put_pumps(&rt, &RUN);
    let (ended, steps) = ended_of(&rt, &capture);
    alike(
        &rt,
        &ended,
        &RecordEnd {
            step: 1,
            cause: RecordEndCause::Closed,
        },
    );
    same(&rt, &steps.len(), &0);
    Ok(())
}

/// How many ticks each of two workers hands over.
const TICKS_OF_ONE: u64 = 1000;

/// Hands over every second tick from a number on; the moment of each is its number.
fn put_every_second<R: Wait>(rt: &R, capture: &Capture, first: u64) {
    for place in 0..TICKS_OF_ONE {
        let number = first.saturating_add(2 * place);
        put_tick(rt, capture, number, number, TICKED);
    }
}

#[test]
fn workers_beside_the_writer(rt: HostRuntime) -> Result<(), Fail> {
    let capture = Capture::new(rt.alloc(), 1)?;
    let mut wanted = Vec::new(rt.alloc());
    for number in 1..=2 * TICKS_OF_ONE {
        writeln!(wanted, "tick {number}")?;
    }
    let (handle, shared) = (&rt, &capture);
    let ((ended, steps), ()) = thread::join(
        handle,
        move || ended_of(handle, shared),
        move || {
            thread::join(
                handle,
                move || put_every_second(handle, shared, 2),
                move || put_every_second(handle, shared, 1),
            );
            shared.close(handle);
        },
    );
    alike(
        &rt,
        &ended,
        &RecordEnd {
            step: 2001,
            cause: RecordEndCause::Closed,
        },
    );
    same_list(&rt, steps.as_slice(), wanted.as_slice());
    Ok(())
}
