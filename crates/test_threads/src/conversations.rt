//! Tests of run_shared and run_state: steps that two actors make in turn are answered as `Hub::run` answers them, and
//! recorded.
ghost use Rattle.test_tools.specs.Opening.{IsFor};

use crate::checks::{same, same_list};
use crate::telling::{push_call, push_entry};
use gw_map::DEFAULT_SETTINGS;
use std::marker::Brand;
use std::process::Abort;
use std::sync::Wait;
use test_tools::{
    Answer, Course, Entry, Opening, TestCore, Turn, entries_since, replies_of_run, steps_of,
    text_of,
};

/// An unsolicited response that is repeated, and one that nobody asked for.
const UNSOLICITED: &str = "open 0 0
frame 0 0 68 04 07 00 00 00
pump 0 0
up 0 0
frag 0 0 F0 82 00 00 02 01 17 01 05 81
frag 0 0 F0 82 00 00 02 01 17 01 05 81
frag 0 0 C0 81 00 00
pump 0 7
pump 0 8
tick 8
close 0 8";

const UNSOLICITED_REPLIES: &str = "ok
taken
apdu 68 04 0B 00 00 00
ok
accepted confirm D0 00
repeated confirm D0 00
ignored NoRequest
apdu 68 0E 00 00 00 00 01 01 03 00 01 00 05 10 00 01
nothing
ticked
ok
";

/// A station interrogation.
const INTERROGATION: &str = "open 0 0
frame 0 0 68 04 07 00 00 00
pump 0 0
frame 0 0 68 0E 00 00 00 00 64 01 06 00 01 00 00 00 00 14
pump 0 0
pump 0 0
pump 0 0
pump 0 0
pump 0 0
tick 0
close 0 0";

const INTERROGATION_REPLIES: &str = "ok
taken
apdu 68 04 0B 00 00 00
taken
apdu 68 0E 00 00 02 00 64 01 07 00 01 00 00 00 00 14
apdu 68 0E 02 00 02 00 01 01 14 00 01 00 05 10 00 C0
apdu 68 10 04 00 02 00 0B 01 14 00 01 00 69 10 00 00 00 C0
apdu 68 0E 06 00 02 00 64 01 0A 00 01 00 00 00 00 14
nothing
ticked
ok
";

/// A single command of two clients: one selects, the other executes, which is confirmed negatively, and then the first;
/// the outstation refuses it, and another execute without a select is confirmed negatively at once.
const COMMAND: &str = "up 0 0
poll 0 0 0
frag 0 0 C0 81 00 00
open 0 0
frame 0 0 68 04 07 00 00 00
pump 0 0
open 1 0
frame 1 0 68 04 07 00 00 00
pump 1 0
frame 0 0 68 0E 00 00 00 00 2D 01 06 00 01 00 89 13 00 81
pump 0 0
frame 1 0 68 0E 00 00 00 00 2D 01 06 00 01 00 89 13 00 01
pump 1 0
frame 0 0 68 0E 02 00 02 00 2D 01 06 00 01 00 89 13 00 01
pump 0 0
poll 0 0 0
frag 0 0 C1 81 00 00 0C 01 28 01 00 03 00 03 01 00 00 00 00 00 00 00 00 04
pump 0 0
frame 0 0 68 0E 04 00 04 00 2D 01 06 00 01 00 89 13 00 01
pump 0 0
poll 0 0 0
tick 0
close 0 0";

const COMMAND_REPLIES: &str = "ok
request C0 01 3C 02 06 3C 03 06 3C 04 06 3C 01 06
accepted end
ok
taken
apdu 68 04 0B 00 00 00
ok
taken
apdu 68 04 0B 00 00 00
taken
apdu 68 0E 00 00 02 00 2D 01 07 00 01 00 89 13 00 81
taken
apdu 68 0E 00 00 02 00 2D 01 47 00 01 00 89 13 00 01
taken
nothing
request C1 05 0C 01 28 01 00 03 00 03 01 00 00 00 00 00 00 00 00 00
accepted end
apdu 68 0E 02 00 04 00 2D 01 47 00 01 00 89 13 00 01
taken
apdu 68 0E 04 00 06 00 2D 01 47 00 01 00 89 13 00 01
nothing
ticked
ok
";

/// An outstation is lost, and comes back.
const LOSS: &str = "open 0 0
frame 0 0 68 04 07 00 00 00
pump 0 0
up 0 0
frag 0 0 F0 82 00 00 02 01 17 01 05 81
pump 0 0
down 0 5
pump 0 5
pump 0 5
up 0 9
poll 0 9 0
frag 0 9 C0 81 00 00 01 02 00 05 05 81
pump 0 9
tick 9
close 0 9";

const LOSS_REPLIES: &str = "ok
taken
apdu 68 04 0B 00 00 00
ok
accepted confirm D0 00
apdu 68 0E 00 00 00 00 01 01 03 00 01 00 05 10 00 01
ok
apdu 68 0E 02 00 00 00 01 01 03 00 01 00 05 10 00 41
nothing
ok
request C0 01 3C 02 06 3C 03 06 3C 04 06 3C 01 06
accepted end
apdu 68 0E 04 00 00 00 01 01 03 00 01 00 05 10 00 01
ticked
ok
";

/// STARTDT act and con.
const START: &str = "open 0 0
frame 0 0 68 04 07 00 00 00
pump 0 0";

const START_REPLIES: &str = "ok
taken
apdu 68 04 0B 00 00 00
";

/// How a conversation is recorded.
#[derive(Clone, Copy)]
struct Recording {
    /// How many calls the recorder keeps.
    room: usize,
    /// The calls that are made, and perhaps more.
    turns: &'static [Turn],
    /// How many of them the recorder has forgotten, and how many those were of each actor.
    forgotten: usize,
    counts: [u64; 2],
}

/// By actors 0 and 1 in turn, with room for all.
const WHOLE: Recording = Recording {
    room: 64,
    turns: &[
        (0, 1),
        (1, 1),
        (0, 2),
        (1, 2),
        (0, 3),
        (1, 3),
        (0, 4),
        (1, 4),
        (0, 5),
        (1, 5),
        (0, 6),
        (1, 6),
        (0, 7),
        (1, 7),
        (0, 8),
        (1, 8),
        (0, 9),
        (1, 9),
        (0, 10),
        (1, 10),
        (0, 11),
        (1, 11),
        (0, 12),
        (1, 12),
    ],
    forgotten: 0,
    counts: [0, 0],
};

/// With room for two calls: the recorder begins anew at the third, the first of actor 1.
const THIRD: Recording = Recording {
    room: 2,
    turns: &[(0, 1), (0, 2), (1, 1)],
    forgotten: 2,
    counts: [2, 0],
};

/// A conversation.
#[derive(Clone, Copy)]
struct Conversation {
    /// The lines of its steps, and those of their answers.
    lines: &'static str,
    replies: &'static str,
    recording: &'static Recording,
}

const CONVERSATIONS: &[Conversation] = &[
    Conversation {
        lines: UNSOLICITED,
        replies: UNSOLICITED_REPLIES,
        recording: &WHOLE,
    },
    Conversation {
        lines: INTERROGATION,
        replies: INTERROGATION_REPLIES,
        recording: &WHOLE,
    },
    Conversation {
        lines: COMMAND,
        replies: COMMAND_REPLIES,
        recording: &WHOLE,
    },
    Conversation {
        lines: LOSS,
        replies: LOSS_REPLIES,
        recording: &WHOLE,
    },
    Conversation {
        lines: START,
        replies: START_REPLIES,
        recording: &THIRD,
    },
];

#[test]
fn as_one_thread(rt: HostRuntime) {
    for conversation in CONVERSATIONS {
        let opening = Opening::of(rt.alloc(), 2, DEFAULT_SETTINGS).expect(&rt, "an opening");
        converse::<Brand, _>(&rt, opening, conversation);
    }
}

/// Makes a conversation on a core that is new.
fn converse<L: Course, R: Wait + Abort + AllocGlobal>(
    rt: &R,
    opening: Opening,
    conversation: &Conversation,
)
    requires { IsFor L.name L.parts L.book L.setup L.roles 2 opening }
{
    let Recording {
        room,
        turns,
        counts,
        ..
    } = conversation.recording;
    let mut core = TestCore::<L>::new(rt.alloc(), opening, 2, (*room).max(1)).expect(rt, "a core");
    let answers = core
        .answers_of(rt, turns, conversation.lines)
        .expect(rt, "answers");
    let (total, recorder) = core.end(rt).expect(rt, "all passes");
    same(rt, &total, &(answers.len() as u64));
    let entries = entries_since(rt.alloc(), &recorder, counts).expect(rt, "calls answered alike");
    check(rt, conversation, &answers, entries);
    drop(recorder);
}

/// The answers are the replies, and those of a run; and the calls are recorded.
fn check<R: Abort + AllocGlobal>(
    rt: &R,
    conversation: &Conversation,
    answers: &[Answer],
    entries: &[Entry],
) {
    let Conversation {
        lines,
        replies,
        recording,
    } = *conversation;
    let text = text_of(rt.alloc(), answers).expect(rt, "memory");
    same_list(rt, text.as_slice(), replies.as_bytes());
    check_run(rt, lines, replies);
    check_entries(rt, entries, recording, lines, answers);
}

/// `Hub::run` gives these replies to the steps of these lines.
fn check_run<R: Abort + AllocGlobal>(rt: &R, lines: &str, replies: &str) {
    let given = replies_of_run(rt.alloc(), DEFAULT_SETTINGS, lines).expect(rt, "replies");
    same_list(rt, given.as_slice(), replies.as_bytes());
}

/// A recorder has kept as these entries the calls that were made, but for those that it has forgotten.
fn check_entries<R: Abort + AllocGlobal>(
    rt: &R,
    entries: &[Entry],
    recording: &Recording,
    lines: &str,
    answers: &[Answer],
) {
    let mut kept = Vec::new(rt.alloc());
    for entry in entries {
        push_entry(rt, &mut kept, entry);
    }
    let made = text_of_calls(rt, recording, lines, answers);
    same_list(rt, kept.as_slice(), made.as_slice());
}

/// The lines of the calls that the recorder is to keep.
fn text_of_calls<R: Abort + AllocGlobal>(
    rt: &R,
    recording: &Recording,
    lines: &str,
    answers: &[Answer],
) -> Vec<u8> {
    let steps = steps_of(rt.alloc(), lines).expect(rt, "steps");
    let calls = steps.iter().zip(answers).zip(recording.turns);
    let mut text = Vec::new(rt.alloc());
    for ((step, answer), turn) in calls.skip(recording.forgotten) {
        push_call(rt, &mut text, *turn, step, answer);
    }
    text
}
