//! What the threads share that make steps on the core.
ghost use Rattle.run_shared.specs.Roles.{MayMake};
ghost use Rattle.run_shared.specs.Tried.{IsTried};

use gw_threads::{Calls, Clock, Course, Gate, Pass, Step, make_call};
use run_peers::Reporter;
use std::sync::Wait;

/// What the threads share that make steps on the core: the reporter, which is told of connections, the core, and the gate, which
/// is told of each step.
#[derive(Drop)]
pub struct Server<'a, S, R, C, G> {
    pub reporter: &'a Reporter<'a, R, C>,
    pub shared: &'a S,
    pub gate: &'a G,
}

impl<'a, S, R: Wait, C: Clock, G: Gate> Server<'a, S, R, C, G> {
    /// Makes a step on the core; whether it was made.
    pub(crate) fn make_step<L: Course>(&self, pass: &mut Pass<L>, step: Step) -> bool
    where
        S: Calls<L>,
        requires may { MayMake L.roles pass.old.actor step }
        ensures { IsTried L.setup pass.old pass.new step result }
    {
        make_call(self.reporter.rt, self.shared, pass, step, self.gate).is_ok()
    }
}
