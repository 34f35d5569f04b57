//! Readers of a peer that comes up on a core of its own, and is down behind them.
ghost use Rattle.std.specs.Prelude.{None};
ghost use Rattle.test_tools.specs.Opening.{IsFor};

use crate::watched::{begin, end};
use std::io::Print;
use std::process::Abort;
use std::sync::Wait;
use test_tools::{Arrival, Course, Incoming, OpenGate, Opening, Sent, Source, TestCore, WorkerEnd};

/// Octets of which so many reads give some; the next one fails.
#[derive(Drop)]
pub struct Input<'a> {
    sent: Sent<'a>,
    reads: u8,
    has_failed: bool,
}

impl<'a> Input<'a> {
    pub fn failing(octets: &'a [u8], reads: u8) -> Input<'a> {
        Input {
            sent: Sent { rest: octets },
            reads,
            has_failed: false,
        }
    }

    /// More reads than there are octets.
    pub fn whole(octets: &'a [u8]) -> Input<'a> {
        Input::failing(octets, u8::MAX)
    }
}

impl<'a> Incoming for Input<'a> {
    ghost given = { λ _. None };

    ghost has_failed = { λ input. input.has_failed };

    fn receive(&mut self, buffer: &mut [u8]) -> Arrival {
        if self.reads == 0 {
            self.has_failed = true;
            return Arrival::Fault;
        }
        self.reads -= 1;
        self.sent.receive(buffer)
    }
}

/// A client comes up and sends octets. It is down behind its reader: why this ended, and how many calls were made.
pub fn read_client_on<L: Course, R: Wait + Print + Abort + AllocGlobal>(
    rt: &R,
    opening: Opening,
    input: Input<'_>,
) -> (WorkerEnd, u64)
    requires { IsFor L.name L.parts L.book L.setup L.roles 1 opening }
{
    let mut core = TestCore::<L>::new(rt.alloc(), opening, 1, 64).expect(rt, "a core");
    assert!(rt; core.answers_so(rt, &[(0, 1)], "open 0 0", "ok\n"));
    assert!(rt; core.stands(rt, 0));
    let mut input = input;
    begin(rt);
    let why = core
        .read_client(rt, &mut input, &OpenGate)
        .expect(rt, "a pass");
    end(rt, usize::from(why == WorkerEnd::Memory));
    assert!(rt; !core.stands(rt, 0));
    (why, core.total(rt).expect(rt, "all passes"))
}

/// Outstation 0 comes up and sends octets. It is down behind its reader: why this ended.
pub fn read_outstation_on<L: Course, R: Wait + Print + Abort + AllocGlobal>(
    rt: &R,
    opening: Opening,
    source: &Source,
    input: Input<'_>,
) -> WorkerEnd
    requires { IsFor L.name L.parts L.book L.setup L.roles 1 opening }
{
    let mut core = TestCore::<L>::new(rt.alloc(), opening, 1, 64).expect(rt, "a core");
    assert!(rt; core.answers_so(rt, &[(0, 1)], "up 0 0", "ok\n"));
    assert!(rt; !core.comes_up(rt));
    let mut input = input;
    begin(rt);
    let why = core
        .read_outstation(rt, source, &mut input, &OpenGate)
        .expect(rt, "a pass");
    end(rt, usize::from(why == WorkerEnd::Memory));
    assert!(rt; core.comes_up(rt));
    core.total(rt).expect(rt, "all passes");
    why
}
