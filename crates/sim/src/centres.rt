//! All control centres.

use crate::centre_part::CentrePart;
use crate::passes::{Workers, two_of};
use crate::scene::{Part, Scene};
use gw_threads::Gate;
use run_shared::{Calls, Course, Pass};
use std::alloc::AllocError;
use std::sync::Wait;

/// Workers that come to be once there are passes for them.
pub trait Gathers<L: Course>: Workers<L> {
    /// As many come to be as there are to be.
    fn gather(&mut self, passes: &mut Vec<Pass<L>>) -> Result<(), AllocError>;
}

/// All control centres, one after the other.
#[derive(Drop)]
pub struct Centres<'a, 'b, L: Course, S: Calls<L>, R: Wait, G: Gate> {
    scene: &'b Scene<'a, L, S, R, G>,
    parts: Vec<CentrePart<'a, 'b, L, S, R, G>>,
}

impl<'a, 'b, L: Course, S: Calls<L>, R: Wait, G: Gate> Centres<'a, 'b, L, S, R, G> {
    /// None yet.
    pub fn new(scene: &'b Scene<'a, L, S, R, G>) -> Centres<'a, 'b, L, S, R, G> {
        Centres {
            scene,
            parts: Vec::new(scene.alloc),
        }
    }
}

impl<'a, 'b, L: Course, S: Calls<L>, R: Wait, G: Gate> Gathers<L> for Centres<'a, 'b, L, S, R, G> {
    fn gather(&mut self, passes: &mut Vec<Pass<L>>) -> Result<(), AllocError> {
        for (number, outbox) in (0u8..).zip(&self.scene.stage.centres) {
            if let Some(two) = two_of(passes) {
                self.parts
                    .push(CentrePart::new(self.scene, number, outbox, two))?;
            }
        }
        Ok(())
    }
}

impl<'a, 'b, L: Course, S: Calls<L>, R: Wait, G: Gate> Part for Centres<'a, 'b, L, S, R, G> {
    fn due(&self) -> u64 {
        self.parts.due()
    }

    fn act(&mut self, now: u64) {
        self.parts.act(now);
    }

    fn at_work(&self) -> u64 {
        self.parts.at_work()
    }
}

impl<'a, 'b, L: Course, S: Calls<L>, R: Wait, G: Gate> Workers<L> for Centres<'a, 'b, L, S, R, G> {
    fn give(self, passes: &mut Vec<Pass<L>>) {
        let Centres { parts, .. } = self;
        parts.give(passes);
    }
}
