//! What each worker works with.
ghost use Rattle.std.specs.Prelude.{◌≡◌, ℕ};
ghost use Rattle.run_shared.specs.Roles.{MayMake};
ghost use Rattle.run_shared.specs.Turn.{Answers};
ghost use Rattle.gw_threads.specs.Sends.{TellsOutstationLoss};
ghost use Rattle.gw_threads.specs.Ticking.{Ticks};
ghost use Rattle.gw_threads.specs.Written.{TellsLoss};

use crate::call::make_call;
use crate::standstill::Turns;
use run_clock::Clock;
use run_shared::{Calls, Course, Gate, Pass, Place, Reply, Step, StepFault};
use std::sync::Wait;

/// The milliseconds from one tick to the next.
const TICK_MS: u64 = 100;

/// The milliseconds from a standstill of the host, once it is known, to the next tick.
const CATCHING_UP_MS: u64 = 200;

/// What each worker works with: the shared core, the pass with which it calls that, its clock, and who is told of its calls.
#[derive(Drop)]
pub struct Worker<'a, L: Course, S: Calls<L>, R: Wait, C: Clock, G: Gate> {
    pub rt: &'a R,
    pub shared: &'a S,
    pub pass: Pass<L>,
    pub clock: &'a C,
    pub gate: &'a G,
}

impl<'a, L: Course, S: Calls<L>, R: Wait, C: Clock, G: Gate> Worker<'a, L, S, R, C, G> {
    /// Makes a step on the core. Gives the reply.
    pub fn make(&mut self, step: Step) -> Result<Reply, StepFault>
        requires may { MayMake L.roles self.old.pass.actor step }
        ensures answered { (number : ℕ) × Answers L.setup self.old.pass self.new.pass step (number, result) }
        ensures own { self.new.pass.actor ≡ self.old.pass.actor }
    {
        make_call(self.rt, self.shared, &mut self.pass, step, self.gate)
    }

    /// Has come to a place on its way.
    pub(crate) fn come_to(&self, place: Place) {
        self.gate.at(self.pass.actor(), place);
    }

    /// The connection to a client is lost. If it was lost before, nothing changes.
    pub fn lose_client(&mut self, client: u8)
        ensures own { self.new.pass.actor ≡ self.old.pass.actor }
        ensures told { TellsLoss L.setup client self.old.pass self.new.pass }
    {
        let moment = self.clock.moment();
        let _ = self.make(Step::ClientDown { client, moment });
    }

    /// The connection to an outstation is lost. If it was lost before, nothing changes.
    pub fn lose_outstation(&mut self, outstation: u8)
        ensures own { self.new.pass.actor ≡ self.old.pass.actor }
        ensures told { TellsOutstationLoss L.setup outstation self.old.pass self.new.pass }
    {
        let moment = self.clock.moment();
        let _ = self.make(Step::OutstationDown { outstation, moment });
    }

    /// One turn of the clock: makes a tick, or puts it off after a standstill. How many milliseconds later the next turn
    /// comes, if one does.
    #[tactic(auto, using(crate::proofs::TicksAlone::ticks_none))]
    pub fn tick(&mut self, turns: &mut Turns) -> Option<u64>
        ensures own { self.new.pass.actor ≡ self.old.pass.actor }
        ensures ticks { Ticks L.setup self.old.pass self.new.pass }
    {
        if self.shared.stopping() {
            return None;
        }
        let moment = self.clock.moment();
        if let Some(milliseconds) = turns.add(moment) {
            self.gate.stood_still(milliseconds);
            return Some(CATCHING_UP_MS);
        }
        match self.make(Step::Tick { moment }) {
            Ok(_) => Some(TICK_MS),
            Err(_) => None,
        }
    }
}
