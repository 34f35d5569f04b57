//! Tests of what calls on a shared core tell of the orders that end, and of how orders are counted.
ghost use Rattle.test_tools.specs.Opening.{IsFor};

use crate::checks::same;
use cmd_capture::{Instruction, read_instruction};
use run_shared::{Calls, Course, Fate, OrderEnd, Step};
use std::marker::Brand;
use std::process::Abort;
use std::sync::Wait;
use test_tools::{Opening, TestCore};

/// Two outstations with a control each.
const SETTINGS: &str = "\
[station]\ncommon_address = 1\n\
[[outstation]]\naddress = 1\n\
[[outstation]]\naddress = 2\n\
[[control]]\noutstation = 0\nshow = \"single\"\nindex = 3\naddress = 5001\n\
[[control]]\noutstation = 1\nshow = \"single\"\nindex = 3\naddress = 5101\n";

/// A client has commanded the first outstation twice, and the second one once. The first of these orders is given.
const BEGINNING: &[&str] = &[
    "up 0 0",
    "up 1 0",
    "open 0 0",
    "frame 0 0 68 04 07 00 00 00",
    "pump 0 0",
    "frame 0 0 68 0E 00 00 00 00 2D 01 06 00 01 00 89 13 00 01",
    "frame 0 0 68 0E 02 00 00 00 2D 01 06 00 01 00 89 13 00 00",
    "frame 0 0 68 0E 04 00 00 00 2D 01 06 00 01 00 ED 13 00 01",
    "poll 0 0 0",
];

/// The outstation answers that it did the first order.
const DONE: &str = "frag 0 1 C0 81 00 00 0C 01 28 01 00 03 00 03 01 00 00 00 00 00 00 00 00 00";

/// It gives the command back with the status 4: its control doesn't support that.
const REFUSED: &str = "frag 0 1 C0 81 00 00 0C 01 28 01 00 03 00 03 01 00 00 00 00 00 00 00 00 04";

/// It answers without giving the command back.
const EMPTY: &str = "frag 0 1 C0 81 00 00";

/// What became of an order.
#[derive(Clone, Copy, PartialEq)]
enum Became {
    Done,
    Refused,
    Otherwise,
    Unanswered,
    Lost,
    LetGo,
}

/// An order that ended: its number, the outstation that it was for, whose it was, and what became of it.
#[derive(Clone, Copy, PartialEq)]
struct Ended {
    order: u64,
    outstation: usize,
    client: u8,
    became: Became,
}

impl Ended {
    fn of(end: &OrderEnd) -> Ended {
        Ended {
            order: end.order,
            outstation: end.outstation,
            client: end.client,
            became: match end.fate {
                Fate::Done => Became::Done,
                Fate::Refused(..) => Became::Refused,
                Fate::Otherwise(_) => Became::Otherwise,
                Fate::Unanswered(_) => Became::Unanswered,
                Fate::Lost => Became::Lost,
                Fate::LetGo => Became::LetGo,
            },
        }
    }
}

/// The first order, whose outstation was lost.
const FIRST_LOST: Ended = Ended {
    order: 1,
    outstation: 0,
    client: 0,
    became: Became::Lost,
};

const FIRST_DONE: Ended = Ended {
    became: Became::Done,
    ..FIRST_LOST
};

const FIRST_REFUSED: Ended = Ended {
    became: Became::Refused,
    ..FIRST_LOST
};

const FIRST_OTHERWISE: Ended = Ended {
    became: Became::Otherwise,
    ..FIRST_LOST
};

const FIRST_UNANSWERED: Ended = Ended {
    became: Became::Unanswered,
    ..FIRST_LOST
};

const SECOND_LOST: Ended = Ended {
    order: 2,
    ..FIRST_LOST
};

const SECOND_LET_GO: Ended = Ended {
    became: Became::LetGo,
    ..SECOND_LOST
};

const THIRD_LOST: Ended = Ended {
    order: 3,
    outstation: 1,
    ..FIRST_LOST
};

const THIRD_LET_GO: Ended = Ended {
    became: Became::LetGo,
    ..THIRD_LOST
};

/// That of the second client.
const FOURTH_LET_GO: Ended = Ended {
    order: 4,
    client: 1,
    ..THIRD_LET_GO
};

const FIFTH_LET_GO: Ended = Ended {
    order: 5,
    ..THIRD_LET_GO
};

/// What happens then; the orders that end by that; and how many of the two orders for the first
/// outstation were done, failed, were let go, and wait still.
#[derive(Clone, Copy)]
struct Sequel {
    lines: &'static [&'static str],
    ended: &'static [Ended],
    counts: [u64; 4],
}

/// Answers, losses, the ways in which a session ends, and an answer that doesn't come.
const SEQUELS: &[Sequel] = &[
    Sequel {
        lines: &["down 1 1"],
        ended: &[THIRD_LOST],
        counts: [0, 0, 0, 2],
    },
    Sequel {
        lines: &["down 0 1"],
        ended: &[FIRST_LOST, SECOND_LOST],
        counts: [0, 2, 0, 0],
    },
    Sequel {
        lines: &[REFUSED],
        ended: &[FIRST_REFUSED],
        counts: [0, 1, 0, 1],
    },
    Sequel {
        lines: &[EMPTY],
        ended: &[FIRST_OTHERWISE],
        counts: [0, 1, 0, 1],
    },
    // STOPDT act.
    Sequel {
        lines: &["frame 0 1 68 04 13 00 00 00", DONE, "close 0 2"],
        ended: &[SECOND_LET_GO, THIRD_LET_GO, FIRST_DONE],
        counts: [1, 0, 1, 0],
    },
    Sequel {
        lines: &["close 0 1", "down 0 2"],
        ended: &[SECOND_LET_GO, THIRD_LET_GO, FIRST_LOST],
        counts: [0, 1, 1, 0],
    },
    // An N(R) that nothing was sent with.
    Sequel {
        lines: &["frame 0 1 68 04 01 00 FE FF", DONE],
        ended: &[SECOND_LET_GO, THIRD_LET_GO, FIRST_DONE],
        counts: [1, 0, 1, 0],
    },
    // The answer to the first command isn't acknowledged before t1 expires.
    Sequel {
        lines: &["tick 5000", "pump 0 5000", "tick 20000"],
        ended: &[FIRST_UNANSWERED, SECOND_LET_GO, THIRD_LET_GO],
        counts: [0, 1, 1, 0],
    },
    // The same with a second client, whose command came before the last one of the first, and whose interrogation's
    // confirmation isn't acknowledged either. What one tick lets go is told outstation by
    // outstation.
    Sequel {
        lines: &[
            "tick 5000",
            "open 1 5000",
            "frame 1 5000 68 04 07 00 00 00",
            "frame 1 5000 68 0E 00 00 00 00 2D 01 06 00 01 00 ED 13 00 01",
            "frame 1 5000 68 0E 02 00 00 00 64 01 06 00 01 00 00 00 00 14",
            "frame 0 5000 68 0E 06 00 00 00 2D 01 06 00 01 00 ED 13 00 00",
            "pump 0 5000",
            "pump 1 5000",
            "pump 1 5000",
            "tick 20000",
        ],
        ended: &[
            FIRST_UNANSWERED,
            SECOND_LET_GO,
            THIRD_LET_GO,
            FOURTH_LET_GO,
            FIFTH_LET_GO,
        ],
        counts: [0, 1, 1, 0],
    },
];

#[test]
fn orders(rt: HostRuntime) {
    for sequel in SEQUELS {
        let opening = Opening::of(rt.alloc(), 1, SETTINGS).expect(&rt, "an opening");
        run::<Brand, _>(&rt, opening, sequel);
    }
}

/// Goes through it on a core of its own.
fn run<L: Course, R: Wait + Abort + AllocGlobal>(rt: &R, opening: Opening, sequel: &Sequel)
    requires { IsFor L.name L.parts L.book L.setup L.roles 1 opening }
{
    let mut core = TestCore::<L>::new(rt.alloc(), opening, 1, 8).expect(rt, "a core");
    let mut ended = Vec::new(rt.alloc());
    for lines in [BEGINNING, sequel.lines] {
        for line in lines {
            make(rt, &mut core, line, &mut ended);
        }
    }
    assert!(rt; ended.as_slice() == sequel.ended);
    check_counts(rt, &core, sequel);
    core.total(rt).expect(rt, "all passes");
}

/// Makes the step of a line, and adds the orders that ended by it.
fn make<L: Course, R: Wait + Abort + AllocGlobal>(
    rt: &R,
    core: &mut TestCore<L>,
    line: &str,
    ended: &mut Vec<Ended>,
) {
    let (_number, reply) = core.step(rt, 0, step_of(rt, line)).expect(rt, "a pass");
    assert!(rt; reply.is_ok(), "{line}");
    let pass = core.passes.get_mut(0).expect(rt, "a pass");
    for end in pass.effects().order_ends().iter() {
        ended.push(Ended::of(end)).expect(rt, "memory");
    }
}

/// The step of a line.
fn step_of<R: Abort + AllocGlobal>(rt: &R, line: &str) -> Step {
    match read_instruction(rt.alloc(), line.as_bytes()) {
        Ok(Some(Instruction::Make(step))) => step,
        _ => rt.panic("a line is no step"),
    }
}

/// The two orders for the first outstation are counted so.
fn check_counts<L: Course, R: Wait + Abort>(rt: &R, core: &TestCore<L>, sequel: &Sequel) {
    let orders = core.shared.figures(rt).orders[0];
    let counts = [orders.done, orders.failed, orders.let_go, orders.waiting()];
    same(rt, &orders.accepted, &2);
    same(rt, &counts, &sequel.counts);
}
