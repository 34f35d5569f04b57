//! The shared core and the readers round it, where memory is refused: a step that is refused is counted and noted, and the
//! same step again is answered; a recorder goes off; a reader ends, and its peer is down.
ghost use Rattle.test_tools.specs.Opening.{IsFor};

use crate::checks::{same, same_list};
use crate::reading::{Input, read_client_on, read_outstation_on};
use crate::watched::{begin, end};
use gw_map::DEFAULT_SETTINGS;
use std::io::Print;
use std::marker::Brand;
use std::process::Abort;
use std::sync::Wait;
use test_tools::{
    Answer, Course, FROM_CLIENT, Opening, Recorder, Reply, SOURCES, Step, StepFault,
    TWO_OUTSTATIONS, TestCore, WorkerEnd, steps_of, text_of,
};

/// A station interrogation of a client that has started.
const INTERROGATION: &str = "open 0 0
frame 0 0 68 04 07 00 00 00
pump 0 0
frame 0 0 68 0E 00 00 00 00 64 01 06 00 01 00 00 00 00 14
pump 0 0
pump 0 0
pump 0 0
pump 0 0
pump 0 0";

const INTERROGATION_REPLIES: &str = "ok
taken
apdu 68 04 0B 00 00 00
taken
apdu 68 0E 00 00 02 00 64 01 07 00 01 00 00 00 00 14
apdu 68 0E 02 00 02 00 01 01 14 00 01 00 05 10 00 C0
apdu 68 10 04 00 02 00 0B 01 14 00 01 00 69 10 00 00 00 C0
apdu 68 0E 06 00 02 00 64 01 0A 00 01 00 00 00 00 14
nothing
";

/// What the steps of a conversation were answered.
#[derive(Drop)]
struct Answered {
    /// By all calls, and by those that were not refused memory.
    made: Vec<Answer>,
    taken: Vec<Answer>,
}

#[test]
fn steps_again(rt: HostRuntime) {
    let opening = Opening::of(rt.alloc(), 1, DEFAULT_SETTINGS).expect(&rt, "an opening");
    interrogate::<Brand, _>(&rt, opening);
}

/// Interrogates the station. Each step that is refused memory is made again.
fn interrogate<L: Course, R: Wait + Print + Abort + AllocGlobal>(rt: &R, opening: Opening)
    requires { IsFor L.name L.parts L.book L.setup L.roles 1 opening }
{
    let mut core = TestCore::<L>::new(rt.alloc(), opening, 1, 64).expect(rt, "a core");
    let course = course_of(rt, &mut core);
    let text = text_of(rt.alloc(), &course.taken).expect(rt, "memory");
    same_list(rt, text.as_slice(), INTERROGATION_REPLIES.as_bytes());
    let (total, recorder) = core.end(rt).expect(rt, "all passes");
    same(rt, &total, &(course.made.len() as u64));
    check_noted(rt, &recorder, &course.made);
    drop(recorder);
}

/// Makes the steps of the interrogation.
fn course_of<L: Course, R: Wait + Print + Abort + AllocGlobal>(
    rt: &R,
    core: &mut TestCore<L>,
) -> Answered {
    let steps = steps_of(rt.alloc(), INTERROGATION).expect(rt, "steps");
    let spare = steps_of(rt.alloc(), INTERROGATION).expect(rt, "steps");
    let mut course = Answered {
        made: Vec::with_capacity(rt.alloc(), 32).expect(rt, "memory"),
        taken: Vec::with_capacity(rt.alloc(), 32).expect(rt, "memory"),
    };
    begin(rt);
    for (step, again) in steps.into_iter().zip(spare) {
        if !make(rt, core, step, &mut course) {
            assert!(rt; make(rt, core, again, &mut course));
        }
    }
    end(rt, course.made.len().saturating_sub(course.taken.len()));
    course
}

/// Makes a step; whether it was not refused memory.
fn make<L: Course, R: Wait + Abort>(
    rt: &R,
    core: &mut TestCore<L>,
    step: Step,
    course: &mut Answered,
) -> bool {
    let (_number, answer) = core.step(rt, 0, step).expect(rt, "a pass");
    course.made.push(answer).expect(rt, "memory");
    if let Err(StepFault::Memory) = answer {
        return false;
    }
    course.taken.push(answer).expect(rt, "memory");
    true
}

/// A recorder has kept all calls of one actor, with these answers.
fn check_noted<R: Abort + AllocGlobal>(rt: &R, recorder: &Recorder, made: &[Answer]) {
    let dump = recorder.dump().expect(rt, "a recorder that is on");
    let mut noted = Vec::new(rt.alloc());
    for (entry, ordinal) in dump.entries.iter().zip(1..u64::MAX) {
        same(rt, &(entry.actor, entry.ordinal), &(0, ordinal));
        noted.push(entry.reply).expect(rt, "memory");
    }
    let noted = text_of(rt.alloc(), &noted).expect(rt, "memory");
    let made = text_of(rt.alloc(), made).expect(rt, "memory");
    same_list(rt, noted.as_slice(), made.as_slice());
}

/// STARTDT act and con.
const START: &str = "open 0 0
frame 0 0 68 04 07 00 00 00
pump 0 0";

const START_CON: &[u8] = &[0x68, 0x04, 0x0B, 0x00, 0x00, 0x00];

/// A recorder that can't begin anew for want of memory keeps no calls any more, and changes no reply. Where the core can't
/// be made, or its recorder is off, another one like it is made, whose recorder is on.
#[test]
fn a_recorder(rt: HostRuntime) {
    let opening = Opening::of(rt.alloc(), 2, DEFAULT_SETTINGS).expect(&rt, "an opening");
    let steps = steps_of(rt.alloc(), START).expect(&rt, "steps");
    begin(&rt);
    let is_on = start::<Brand, _>(&rt, opening, steps);
    end(&rt, usize::from(is_on != Some(true)));
    let opening = Opening::of(rt.alloc(), 2, DEFAULT_SETTINGS).expect(&rt, "an opening");
    let steps = steps_of(rt.alloc(), START).expect(&rt, "steps");
    assert!(&rt; start::<Brand, _>(&rt, opening, steps) == Some(true));
}

/// Makes the steps on a new core, whose recorder keeps two calls. Whether the recorder is on then; nothing where the core
/// can't be made.
fn start<L: Course, R: Wait + Abort + AllocGlobal>(
    rt: &R,
    opening: Opening,
    steps: Vec<Step>,
) -> Option<bool>
    requires { IsFor L.name L.parts L.book L.setup L.roles 2 opening }
{
    let mut core = TestCore::<L>::new(rt.alloc(), opening, 2, 2)?;
    make_start(rt, &mut core, steps);
    let (total, recorder) = core.end(rt).expect(rt, "all passes");
    same(rt, &total, &3);
    let is_on = is_on(rt, &recorder);
    drop(recorder);
    Some(is_on)
}

/// Makes two steps as actor 0, and the third as actor 1.
fn make_start<L: Course, R: Wait + Abort>(rt: &R, core: &mut TestCore<L>, steps: Vec<Step>) {
    for (step, actor) in steps.into_iter().zip([0, 0, 1]) {
        let (number, answer) = core.step(rt, actor, step).expect(rt, "a pass");
        assert!(rt; is_start(number, &answer));
    }
}

/// Whether the step with this number of the conversation is answered so.
fn is_start(number: u64, answer: &Answer) -> bool {
    match (number, answer) {
        (1, Ok(Reply::Done)) | (2, Ok(Reply::Taken)) => true,
        (3, Ok(Reply::Apdu(apdu))) => apdu.as_slice() == START_CON,
        _ => false,
    }
}

/// Whether a recorder is on; it has kept the third call then, and forgotten the two of actor 0.
fn is_on<R: Abort>(rt: &R, recorder: &Recorder) -> bool {
    match recorder.dump() {
        Some(dump) => {
            assert!(rt; dump.counts == [2, 0].as_slice());
            same(rt, &dump.entries.len(), &1);
            true
        }
        None => false,
    }
}

/// A reader is refused memory, or reads to the end.
fn has_ended(why: WorkerEnd) -> bool {
    why == WorkerEnd::Memory || why == WorkerEnd::EndOfInput
}

#[test]
fn a_reader_of_a_client(rt: HostRuntime) {
    let opening = Opening::of(rt.alloc(), 1, DEFAULT_SETTINGS).expect(&rt, "an opening");
    let input = Input::whole(FROM_CLIENT);
    let (why, _calls) = read_client_on::<Brand, _>(&rt, opening, input);
    assert!(&rt; has_ended(why));
}

#[test]
fn a_reader_of_an_outstation(rt: HostRuntime) {
    let opening = Opening::of(rt.alloc(), 1, TWO_OUTSTATIONS).expect(&rt, "an opening");
    let [source, _] = SOURCES;
    let input = Input::whole(source.octets);
    let why = read_outstation_on::<Brand, _>(&rt, opening, source, input);
    assert!(&rt; has_ended(why));
}
