//! Tests of whom a call on the shared core wakes, and of when a fragment is too much for a client that reads.
ghost use Rattle.test_tools.specs.Opening.{IsFor};

use crate::checks::same;
use gw_map::DEFAULT_SETTINGS;
use std::marker::Brand;
use std::process::Abort;
use std::sync::Wait;
use test_tools::{Batch, Calls, Course, Load, Opening, TestCore, Turn, step_of};

/// A client has started, was told that a binary input is on, and that nothing more waits.
const TOLD: &str = "open 0 0
frame 0 0 68 04 07 00 00 00
up 0 0
frag 0 0 F0 82 00 00 02 01 17 01 05 81
pump 0 0
pump 0 0
pump 0 0";

const TOLD_REPLIES: &str = "ok
taken
ok
accepted confirm D0 00
apdu 68 04 0B 00 00 00
apdu 68 0E 00 00 00 00 01 01 03 00 01 00 05 10 00 01
nothing
";

/// Makes the step of a line as actor 0, which is answered.
fn make<L: Course, R: Wait + Abort + AllocGlobal>(rt: &R, core: &mut TestCore<L>, line: &str) {
    let step = step_of(rt.alloc(), line).expect(rt, "a step");
    let (_number, answer) = core.step(rt, 0, step).expect(rt, "a pass");
    assert!(rt; answer.is_ok(), "{line}");
}

/// How often the bell of client 0 was rung.
fn ring_count<L: Course, S: Calls<L>, R: Abort>(rt: &R, shared: &S) -> u64 {
    shared.client_bell(0).expect(rt, "a bell").ring_count()
}

/// The loss of an outstation wakes the writer of a client at once, which sleeps.
#[test]
fn a_loss_wakes(rt: HostRuntime) {
    let opening = Opening::of(rt.alloc(), 1, DEFAULT_SETTINGS).expect(&rt, "an opening");
    lose::<Brand, _>(&rt, opening);
}

fn lose<L: Course, R: Wait + Abort + AllocGlobal>(rt: &R, opening: Opening)
    requires { IsFor L.name L.parts L.book L.setup L.roles 1 opening }
{
    let mut core = TestCore::<L>::new(rt.alloc(), opening, 1, 64).expect(rt, "a core");
    let turns: [Turn; 7] = [(0, 0); 7];
    assert!(rt; core.answers_so(rt, &turns, TOLD, TOLD_REPLIES));
    let before = ring_count::<L, _, _>(rt, &core.shared);
    make(rt, &mut core, "down 0 1");
    let after = ring_count::<L, _, _>(rt, &core.shared);
    same(rt, &after.wrapping_sub(before), &1);
    core.total(rt).expect(rt, "all passes");
}

/// Two outstations, and room for eight news.
const SHORT_QUEUE: &str = "[station]
common_address = 1
queue = 8

[[outstation]]
address = 1

[[outstation]]
address = 2

[[point]]
outstation = 0
kind = \"binary\"
index = 5
address = 4101

[[point]]
outstation = 1
kind = \"binary\"
index = 5
address = 4102
";

/// Two news of each outstation.
const FROM_0: &str = "frag 0 0 F0 82 00 00 02 01 17 02 05 81 05 01";

const FROM_1: &str = "frag 1 0 F0 82 00 00 02 01 17 02 05 81 05 01";

/// Where two news wait: of an outstation how many observations it brings, at which moment, and whether that is too much.
/// Seven are, but not behind two seconds, since the client doesn't count as one that reads then. Room is kept for those of the
/// other outstation for which there was some.
const BEFORE: [(u8, u64, u64, bool); 7] = [
    (0, 7, 1000, true),
    (0, 7, 2000, false),
    (0, 6, 1000, false),
    (1, 2, 1000, true),
    (0, 4, 1000, false),
    (1, 2, 1000, false),
    (0, 5, 1000, true),
];

/// Where those of outstation 1 were taken.
const BEHIND: [(u8, u64, u64, bool); 2] = [(0, 4, 1000, false), (0, 5, 1000, true)];

/// Where the client was given all: the one that has waited for longer comes first.
const AT_LAST: [(u8, u64, u64, bool); 3] = [
    (1, 5, 1001, true),
    (1, 3, 1001, false),
    (0, 5, 1001, false),
];

/// What there is room for in a queue of eight.
#[test]
fn room_in_the_queue(rt: HostRuntime) {
    let opening = Opening::of(rt.alloc(), 1, SHORT_QUEUE).expect(&rt, "an opening");
    fill::<Brand, _>(&rt, opening);
}

fn fill<L: Course, R: Wait + Abort + AllocGlobal>(rt: &R, opening: Opening)
    requires { IsFor L.name L.parts L.book L.setup L.roles 1 opening }
{
    let mut core = TestCore::<L>::new(rt.alloc(), opening, 1, 64).expect(rt, "a core");
    for line in [
        "open 0 0",
        "frame 0 0 68 04 07 00 00 00",
        "up 0 0",
        "up 1 0",
    ] {
        make(rt, &mut core, line);
    }
    give(rt, &mut core);
    make(rt, &mut core, FROM_0);
    check_room::<L, _, _>(rt, &core.shared, &BEFORE);
    make(rt, &mut core, FROM_1);
    check_room::<L, _, _>(rt, &core.shared, &BEHIND);
    give(rt, &mut core);
    check_room::<L, _, _>(rt, &core.shared, &AT_LAST);
    core.total(rt).expect(rt, "all passes");
}

/// Asks for room for so many observations of outstations, at moments; each is answered so.
fn check_room<L: Course, S: Calls<L>, R: Wait + Abort>(
    rt: &R,
    shared: &S,
    asked: &[(u8, u64, u64, bool)],
) {
    for (outstation, size, moment, is_outrun) in asked {
        let load = Load {
            outstation: *outstation,
            size: *size,
            waited: 0,
            patience: 1000,
        };
        same(rt, &shared.is_outrun(rt, load, *moment), is_outrun);
    }
}

/// Gives client 0 what waits for it: it counts as one that reads then.
#[tactic(auto, using(test_tools::proofs::Anybody::anybody_pumps))]
fn give<L: Course, R: Wait + Abort>(rt: &R, core: &mut TestCore<L>) {
    let pass = core.passes.get_mut(0).expect(rt, "a pass");
    core.shared.pump(rt, pass, 0, 0, &mut Batch::new());
}
