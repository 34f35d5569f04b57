//! Tests of client_writer where writing fails.
ghost use Rattle.std.specs.Prelude.{None};
ghost use Rattle.test_tools.specs.Opening.{IsFor};

use crate::checks::{same, same_list};
use crate::putting::{REPLIES, RUN, STEPS};
use gw_map::DEFAULT_SETTINGS;
use std::marker::Brand;
use std::process::Abort;
use std::sync::Wait;
use std::sync::atomic::AtomicBool;
use test_tools::{
    Client, Course, OpenGate, Opening, Outgoing, TestCore, Turn, Unwritten, WorkerEnd,
};

/// A client that takes so many octets of the answer to an interrogation, and fails then: they are the front of it.
#[test]
fn writing_ends(rt: HostRuntime) {
    for room in 0..RUN.len() {
        let opening = Opening::of(rt.alloc(), 1, DEFAULT_SETTINGS).expect(&rt, "an opening");
        let octets = write_run::<Brand, _>(&rt, opening, room);
        let front = RUN.get(..room).expect(&rt, "that much");
        same_list(&rt, octets.as_slice(), front);
    }
}

/// Writes the answer to a client that takes so many octets: those that it took.
fn write_run<L: Course, R: Wait + Abort + AllocGlobal>(
    rt: &R,
    opening: Opening,
    room: usize,
) -> Vec<u8>
    requires { IsFor L.name L.parts L.book L.setup L.roles 1 opening }
{
    let core = TestCore::<L>::new(rt.alloc(), opening, 1, 256).expect(rt, "a core");
    let has_ended = AtomicBool::new(false);
    let mut writer = Client::new(rt.alloc(), room, &has_ended);
    write(rt, core, STEPS, REPLIES, &mut writer);
    let Client { octets, .. } = writer;
    octets
}

/// A client that takes the octets of one write, and fails at each further one.
#[derive(Drop)]
struct OneWrite {
    octets: usize,
    writes: u8,
    has_failed: bool,
}

impl Outgoing for OneWrite {
    ghost contents = { λ _. None };

    ghost has_failed = { λ writer. writer.has_failed };

    fn hand(&mut self, octets: &[u8]) -> Result<(), Unwritten> {
        self.writes = self.writes.saturating_add(1);
        if self.writes > 1 {
            self.has_failed = true;
            return Err(Unwritten);
        }
        self.octets = octets.len();
        Ok(())
    }
}

/// An outstation with two points, and a client that may have 100 I formats unacknowledged.
const SETTINGS: &str = "[station]
common_address = 1
k = 100

[[outstation]]
address = 1

[[point]]
outstation = 0
kind = \"binary\"
index = 5
address = 4101

[[point]]
outstation = 0
kind = \"analog\"
index = 0
address = 4201
";

/// The client starts; a fragment comes behind that.
const START: &str = "open 0 0
frame 0 0 68 04 07 00 00 00
up 0 0
";

const START_REPLIES: &str = "ok
taken
ok
accepted confirm D0 00
";

/// The first write has STARTDT con and 63 news: 32 of the one point and 31 of the other. The second one fails, and there
/// is no third.
#[test]
fn the_second_write_fails(rt: HostRuntime) {
    let opening = Opening::of(rt.alloc(), 1, SETTINGS).expect(&rt, "an opening");
    let writer = write_news::<Brand, _>(&rt, opening);
    same(&rt, &writer.octets, &(6 + 32 * 16 + 31 * 18));
    same(&rt, &writer.writes, &2);
}

/// Writes the news to a client that takes one write: what it took.
fn write_news<L: Course, R: Wait + Abort + AllocGlobal>(rt: &R, opening: Opening) -> OneWrite
    requires { IsFor L.name L.parts L.book L.setup L.roles 1 opening }
{
    let core = TestCore::<L>::new(rt.alloc(), opening, 1, 256).expect(rt, "a core");
    let lines = lines_with_news(rt);
    let mut writer = OneWrite {
        octets: 0,
        writes: 0,
        has_failed: false,
    };
    write(rt, core, lines.as_str(), START_REPLIES, &mut writer);
    writer
}

/// The lines of steps that bring 66 news for a client, of two types in turn, so that each goes alone: its start, and a
/// fragment with 33 events of each point.
fn lines_with_news<R: Abort + AllocGlobal>(rt: &R) -> String {
    let mut lines = String::new(rt.alloc());
    lines.push_str(START).expect(rt, "memory");
    lines.push_str("frag 0 0 F0 82 00 00").expect(rt, "memory");
    for _ in 0..33u8 {
        lines
            .push_str(" 02 01 17 01 05 81 20 02 17 01 00 01 10 00")
            .expect(rt, "memory");
    }
    lines
}

/// Whose turn it is at each of the steps.
const TURNS: &[Turn] = &[(0, 0); 4];

/// Behind these steps the writer ends, since a write failed; the client is down, and all calls are counted.
fn write<L: Course, R: Wait + Abort + AllocGlobal, W: Outgoing>(
    rt: &R,
    core: TestCore<L>,
    lines: &str,
    replies: &str,
    writer: &mut W,
) {
    let mut core = core;
    assert!(rt; core.answers_so(rt, TURNS, lines, replies));
    assert!(rt; core.stands(rt, 0));
    let end = core
        .write_client(rt, writer, &OpenGate)
        .expect(rt, "a pass");
    assert!(rt; end == WorkerEnd::WriteFault);
    assert!(rt; !core.stands(rt, 0));
    core.total(rt).expect(rt, "all passes");
}
