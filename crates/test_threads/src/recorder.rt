//! The largest recorder that settings allow: it keeps as many calls, and begins anew at the next one.
ghost use Rattle.test_tools.specs.Opening.{IsFor};

use crate::checks::same;
use gw_map::DEFAULT_SETTINGS;
use std::marker::Brand;
use std::process::Abort;
use std::sync::Wait;
use test_tools::{Course, Opening, Recorder, Step, TestCore};

/// How many calls it keeps.
const MOST: u64 = 65_536;

#[test]
fn the_largest_recorder(rt: HostRuntime) {
    let opening = Opening::of(rt.alloc(), 1, DEFAULT_SETTINGS).expect(&rt, "an opening");
    fill::<Brand, _>(&rt, opening);
}

/// Makes a call more than it keeps.
fn fill<L: Course, R: Wait + Abort + AllocGlobal>(rt: &R, opening: Opening)
    requires { IsFor L.name L.parts L.book L.setup L.roles 1 opening }
{
    let mut core = TestCore::<L>::new(rt.alloc(), opening, 1, MOST as usize).expect(rt, "a core");
    for moment in 0..MOST + 1 {
        let (_number, answer) = core.step(rt, 0, Step::Tick { moment }).expect(rt, "a pass");
        assert!(rt; answer.is_ok());
    }
    let (total, recorder) = core.end(rt).expect(rt, "all passes");
    same(rt, &total, &(MOST + 1));
    check_anew(rt, &recorder);
    drop(recorder);
}

/// It is on, and keeps the last call alone.
fn check_anew<R: Abort>(rt: &R, recorder: &Recorder) {
    let dump = recorder.dump().expect(rt, "a recorder that is on");
    same(rt, &dump.counts, &[MOST].as_slice());
    same(rt, &dump.entries.len(), &1);
}
