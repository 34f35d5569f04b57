//! Tests of a core whose counts stand at their end: the step that would raise one beyond it is refused, and nothing is
//! lost.

use crate::checks::same_list;
use gw_map::{DEFAULT_SETTINGS, Settings};
use std::process::Abort;
use test_tools::{Counts, Hub, replies_of};

const NONE: Counts = Counts {
    news: 0,
    sessions: 0,
    orders: 0,
    steps: 0,
};

/// A hub on which these counts stand gives these replies to the steps of these lines.
fn check<R: Abort + AllocGlobal>(rt: &R, counts: Counts, lines: &str, replies: &str) {
    let settings = Settings::read(rt.alloc(), DEFAULT_SETTINGS).expect(rt, "settings");
    let mut hub = Hub::with_counts(rt.alloc(), settings, counts).expect(rt, "a hub");
    let text = replies_of(rt.alloc(), &mut hub, lines).expect(rt, "replies");
    same_list(rt, text.as_slice(), replies.as_bytes());
    drop(hub);
}

/// An execute that can't be counted is neither carried out nor answered: what comes next takes its number, and is out of
/// sequence with the one behind it.
#[test]
fn no_further_order(rt: HostRuntime) {
    let counts = Counts {
        orders: u64::MAX,
        ..NONE
    };
    let lines = "up 0 0
poll 0 0 0
frag 0 0 C0 81 00 00
open 0 0
frame 0 0 68 04 07 00 00 00
pump 0 0
frame 0 0 68 10 00 00 00 00 31 01 06 00 01 00 8A 13 00 E8 03 00
pump 0 0
frame 0 0 68 0D 00 00 00 00 66 01 05 00 01 00 05 10 00
pump 0 0
frame 0 0 68 0E 02 00 02 00 2D 01 06 00 01 00 89 13 00 81
pump 0 0
frame 0 0 68 0E 04 00 04 00 2D 01 06 00 01 00 89 13 00 01
frame 0 0 68 0E 04 00 04 00 2D 01 06 00 01 00 89 13 00 01
poll 0 0 0
frame 0 0 68 0D 06 00 04 00 66 01 05 00 01 00 05 10 00";
    let replies = "ok
request C0 01 3C 02 06 3C 03 06 3C 04 06 3C 01 06
accepted end
ok
taken
apdu 68 04 0B 00 00 00
fault 6 Spent
nothing
taken
apdu 68 0E 00 00 02 00 01 01 05 00 01 00 05 10 00 C0
taken
apdu 68 0E 02 00 04 00 2D 01 07 00 01 00 89 13 00 81
fault 6 Spent
fault 6 Spent
nothing
closed Sequence
";
    check(&rt, counts, lines, replies);
}

/// A session that can't be counted doesn't begin; the connection stands.
#[test]
fn no_further_session(rt: HostRuntime) {
    let counts = Counts {
        sessions: u64::MAX,
        ..NONE
    };
    let lines = "open 0 0
frame 0 0 68 04 07 00 00 00
pump 0 0
frame 0 0 68 04 43 00 00 00
pump 0 0";
    let replies = "ok
fault 6 Spent
nothing
taken
apdu 68 04 83 00 00 00
";
    check(&rt, counts, lines, replies);
}

/// A fragment whose news can't be counted isn't confirmed; one without news, a repeat and one that nobody asked for are
/// as ever.
#[test]
fn no_further_news(rt: HostRuntime) {
    let counts = Counts {
        news: u64::MAX,
        ..NONE
    };
    let lines = "up 0 0
open 0 0
frame 0 0 68 04 07 00 00 00
pump 0 0
frag 0 0 F0 82 00 00 02 01 17 01 05 81
pump 0 0
frag 0 0 F0 82 00 00
frag 0 0 F0 82 00 00
frag 0 0 C0 81 00 00
frag 0 0 F1 82 00 00 02 01 17 01 05 81
down 0 0";
    let replies = "ok
ok
taken
apdu 68 04 0B 00 00 00
fault 6 Spent
nothing
accepted confirm D0 00
repeated confirm D0 00
ignored NoRequest
fault 6 Spent
ok
";
    check(&rt, counts, lines, replies);
}

/// A loss needs a count for each point of which it tells.
#[test]
fn no_further_loss(rt: HostRuntime) {
    let counts = Counts {
        news: u64::MAX - 1,
        ..NONE
    };
    let lines = "up 0 0
frag 0 0 F0 82 00 00 02 01 17 01 05 81
down 0 0
poll 0 0 0";
    let replies = "ok
accepted confirm D0 00
fault 6 Spent
request C0 01 3C 02 06 3C 03 06 3C 04 06 3C 01 06
";
    check(&rt, counts, lines, replies);
}

/// No step can be counted; what is wrong with the actor comes first.
#[test]
fn no_further_step(rt: HostRuntime) {
    let counts = Counts {
        steps: u64::MAX,
        ..NONE
    };
    let lines = "up 0 0
open 0 0
tick 0
up 1 0
pump 8 0
pump 0 0";
    let replies = "fault 6 Spent
fault 6 Spent
fault 6 Spent
fault 1 NoOutstation
fault 2 NoClient
fault 3 NotUp
";
    check(&rt, counts, lines, replies);
}
