//! Pauses of workers.

use crate::calls::Calls;
use crate::course::Course;
use std::rt::Clock as Sleeps;
use std::thread;
use std::time::Duration;

/// The milliseconds of a piece of a pause, after each of which the server may end.
const PIECE_MS: u64 = 100;

/// How many pieces a second has.
const PIECES: u32 = 10;

/// Lets a second pass, or less if the server ends.
pub fn pause<L: Course, S: Calls<L>, R: Sleeps>(rt: &R, shared: &S) {
    for _ in 0..PIECES {
        if shared.stopping() {
            return;
        }
        thread::sleep(rt, Duration::from_millis(PIECE_MS));
    }
}
