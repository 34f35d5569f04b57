//! The gateway's clock, and the wall clock.

use crate::passes::Workers;
use crate::scene::{Part, Scene};
use gw_threads::{Gate, Turns, Worker};
use run_shared::{Calls, Course, Pass};
use sim_peers::{Number, Random, VirtualClock};
use std::sync::Wait;

/// The milliseconds by which the wall clock is ahead at most.
const MOST_AHEAD: u64 = 7_200_000;

/// The worker that makes the ticks; and the wall clock, which jumps.
#[derive(Drop)]
pub struct Ticker<'a, 'b, L: Course, S: Calls<L>, R: Wait, G: Gate> {
    scene: &'b Scene<'a, L, S, R, G>,
    random: Random,
    worker: Worker<'a, L, S, R, VirtualClock, G>,
    turns: Turns,
    next: u64,
    jump: u64,
    is_at_work: bool,
}

impl<'a, 'b, L: Course, S: Calls<L>, R: Wait, G: Gate> Ticker<'a, 'b, L, S, R, G> {
    /// One that has made none.
    pub fn new(scene: &'b Scene<'a, L, S, R, G>, pass: Pass<L>) -> Ticker<'a, 'b, L, S, R, G> {
        let mut random = scene.random(900);
        let jump = random.next_after(0, scene.scenario.milliseconds(Number::JumpS));
        Ticker {
            scene,
            random,
            worker: scene.worker(pass),
            turns: Turns::new(0),
            next: 0,
            jump,
            is_at_work: true,
        }
    }

    /// Makes a tick.
    fn tick(&mut self, now: u64) {
        let scene = self.scene;
        let rest = self.worker.tick(&mut self.turns);
        let hold = scene.scenario.of(Number::HoldMs);
        match rest {
            Some(rest) => {
                let late = self.random.below(hold.saturating_add(1));
                self.next = now.saturating_add(rest).saturating_add(late);
            }
            None => {
                self.is_at_work = false;
                self.next = u64::MAX;
            }
        }
    }
}

impl<'a, 'b, L: Course, S: Calls<L>, R: Wait, G: Gate> Part for Ticker<'a, 'b, L, S, R, G> {
    fn due(&self) -> u64 {
        self.next.min(self.jump)
    }

    fn act(&mut self, now: u64) {
        if self.next <= now {
            self.tick(now);
        }
        if self.jump <= now {
            let mean = self.scene.scenario.milliseconds(Number::JumpS);
            self.jump = self.random.next_after(now, mean);
            self.scene.clock.jump(self.random.below(MOST_AHEAD));
        }
    }

    fn at_work(&self) -> u64 {
        u64::from(self.is_at_work)
    }
}

impl<'a, 'b, L: Course, S: Calls<L>, R: Wait, G: Gate> Workers<L> for Ticker<'a, 'b, L, S, R, G> {
    fn give(self, passes: &mut Vec<Pass<L>>) {
        let Ticker { worker, .. } = self;
        let _ = passes.push(worker.pass);
    }
}
