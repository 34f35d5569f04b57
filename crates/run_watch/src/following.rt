//! The thread that follows the news, for whoever isn't a control centre. It looks at the core from outside of any step, and takes
//! of each look at most as much as it has room for under one hold of the lock; no step does anything for it.

use crate::status_source::StatusSource;
use gw_model::Observation;
use run_clock::Clock;
use run_peers::Reporter;
use run_shared::{Calls, Course};
use run_values::PointValue;
use std::rt::Clock as Sleeps;
use std::sync::Wait;
use std::thread;
use std::time::Duration;

/// How many observations are copied under one hold of the core's lock: as many as an ASDU carries.
const PIECE: usize = 127;

/// The milliseconds from one look to the next.
const LOOK_MS: u64 = 20;

/// How many pieces a look takes at most, before it is seen whether the server ends.
const MOST_PIECES: usize = 1024;

/// Where somebody stands in the news who isn't a control centre.
#[derive(Drop)]
struct Follower {
    room: [Observation; PIECE],
    /// The number of the first that wasn't taken.
    next: u64,
}

/// Follows the news until the server ends, where anybody wants to know them.
pub fn follow<L: Course, S: Calls<L>, R: Wait + Sleeps, C: Clock>(
    reporter: &Reporter<'_, R, C>,
    shared: &S,
    source: &StatusSource<'_>,
) {
    let mut follower = Follower {
        room: [PointValue::NONE.observation; PIECE],
        next: 0,
    };
    follower.show_all::<L, S, R, C>(reporter, shared, source);
    for _ in reporter.rt.forever() {
        let is_last = shared.stopping();
        follower.look::<L, S, R, C>(reporter, shared, source);
        if is_last {
            return;
        }
        thread::sleep(reporter.rt, Duration::from_millis(LOOK_MS));
    }
}

impl Follower {
    /// Takes what is new.
    fn look<L: Course, S: Calls<L>, R: Wait, C: Clock>(
        &mut self,
        reporter: &Reporter<'_, R, C>,
        shared: &S,
        source: &StatusSource<'_>,
    ) {
        let wall = reporter.clock.wall();
        if let Some(values) = source.values {
            values.look(reporter.rt, wall);
        }
        let mut passed: u64 = 0;
        for _ in 0..MOST_PIECES {
            let piece = shared.copy_news(reporter.rt, self.next, &mut self.room);
            let skipped = piece.first.saturating_sub(self.next);
            passed = passed.saturating_add(skipped);
            self.pass_over(reporter, source, wall, skipped);
            self.next = piece.first.saturating_add(piece.count as u64);
            self.take(reporter, source, wall, piece.count);
            if piece.count < PIECE {
                break;
            }
        }
        if passed > 0 {
            self.show_all::<L, S, R, C>(reporter, shared, source);
        }
    }

    /// So many news were passed over, which is found at a moment.
    fn pass_over<R: Wait, C: Clock>(
        &self,
        reporter: &Reporter<'_, R, C>,
        source: &StatusSource<'_>,
        wall: u64,
        count: u64,
    ) {
        if count == 0 {
            return;
        }
        if let Some(values) = source.values {
            values.pass_over(reporter.rt, count);
        }
        if let Some(events) = source.events {
            events.leave_out(reporter.rt, wall, count);
        }
    }

    /// Hands on so many news, which were told at a moment.
    fn take<R: Wait, C: Clock>(
        &self,
        reporter: &Reporter<'_, R, C>,
        source: &StatusSource<'_>,
        wall: u64,
        count: usize,
    ) {
        let news = &self.room[..count.min(PIECE)];
        if news.is_empty() {
            return;
        }
        if let Some(values) = source.values {
            values.take(reporter.rt, news);
        }
        if let Some(events) = source.events {
            events.add(reporter.rt, wall, news);
        }
    }

    /// Hands on what is shown of all points, where anybody wants to know that: at first, and where news were passed over.
    fn show_all<L: Course, S: Calls<L>, R: Wait, C: Clock>(
        &mut self,
        reporter: &Reporter<'_, R, C>,
        shared: &S,
        source: &StatusSource<'_>,
    ) {
        let Some(values) = source.values else {
            return;
        };
        let mut position: usize = 0;
        for _ in 0..values.points().count() / PIECE + 1 {
            let count = shared.copy_picture(reporter.rt, position, &mut self.room);
            values.show(reporter.rt, position, &self.room[..count.min(PIECE)]);
            position = position.saturating_add(count);
            if count < PIECE {
                break;
            }
        }
    }
}
