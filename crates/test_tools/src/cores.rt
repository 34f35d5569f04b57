//! Cores to test on, and their end.
ghost use Rattle.std.specs.Prelude.{◌≡◌, ◌<◌};
ghost use Rattle.run_shared.specs.Roles.{anybody};
ghost use Rattle.test_tools.specs.Opening.{IsFor};

use crate::asking::{Answer, Turn, has_text, step_of};
use crate::memory::{read_alone, read_client, write_client};
use crate::opening::Opening;
use crate::peers::Source;
use gw_hub::Hub;
use gw_threads::{Calls, Course, Gate, Incoming, Outgoing, Pass, Step, WorkerEnd};
use run_ends::open_line;
use std::alloc::Global;
use std::marker::Brand;
use std::sync::Wait;

/// A hub under its lock.
pub type Shared<L> = gw_threads::Shared<L, Hub>;

/// The recorder of a hub.
pub type Recorder = gw_threads::Recorder<Hub>;

/// A shared core on which anybody may make any call, and the passes of its actors that no call has taken.
#[derive(Drop)]
pub struct TestCore<L: Course> {
    pub shared: Shared<L>,
    pub passes: Vec<Pass<L>>,
    pub ghost roles_are: { L.roles ≡ anybody },
}

impl<L: Course> TestCore<L> {
    /// A core for so many actors, whose recorder keeps so many calls; where there is memory.
    pub fn new(
        alloc: Global,
        opening: Opening,
        actors: usize,
        capacity: usize,
    ) -> Option<TestCore<L>>
        requires opening { IsFor L.name L.parts L.book L.setup L.roles actors opening }
        requires some { (0 < actors) × (0 < capacity) }
    {
        let Opening {
            blank,
            history,
            hub,
        } = opening;
        let (shared, passes) = Shared::<L>::new(alloc, blank, history, hub, actors, capacity).ok()?;
        Some(TestCore { shared, passes })
    }

    /// Makes a step as an actor: the number of the call, and what was answered; nothing where the actor has no pass.
    #[tactic(auto, using(crate::proofs::Anybody::anybody_may))]
    pub fn step<R: Wait>(&mut self, rt: &R, actor: usize, step: Step) -> Option<(u64, Answer)> {
        let pass = self.passes.get_mut(actor)?;
        Some(self.shared.step(rt, pass, step))
    }

    /// Makes the steps of these lines, each as the actor whose turn it is. Gives what they were answered; nothing where a
    /// line is no step's, an actor has no pass, or the calls aren't numbered from 1.
    pub fn answers_of<R: Wait + AllocGlobal>(
        &mut self,
        rt: &R,
        turns: &[Turn],
        lines: &str,
    ) -> Option<Vec<Answer>> {
        let mut answers = Vec::new(rt.alloc());
        for ((wanted, line), (actor, _)) in (1..u64::MAX).zip(lines.lines()).zip(turns) {
            let (number, answer) = self.step(rt, *actor, step_of(rt.alloc(), line)?)?;
            if number != wanted {
                return None;
            }
            answers.push(answer).ok()?;
        }
        Some(answers)
    }

    /// The same; whether these lines are the answers.
    pub fn answers_so<R: Wait + AllocGlobal>(
        &mut self,
        rt: &R,
        turns: &[Turn],
        lines: &str,
        replies: &str,
    ) -> bool {
        match self.answers_of(rt, turns, lines) {
            Some(answers) => has_text(rt.alloc(), &answers, replies),
            None => false,
        }
    }

    /// Whether a client is up.
    pub fn stands<R: Wait>(&self, rt: &R, client: u8) -> bool {
        self.shared.stands(rt, client)
    }

    /// Outstation 0 comes up, which it can't while it is up.
    pub fn comes_up<R: Wait>(&mut self, rt: &R) -> bool {
        let up = Step::OutstationUp {
            outstation: 0,
            moment: 0,
        };
        match self.step(rt, 0, up) {
            Some((_number, answer)) => answer.is_ok(),
            None => false,
        }
    }

    /// Reads what client 0 sends, with the last pass; if there is one.
    pub fn read_client<R: Wait + AllocGlobal, I: Incoming, G: Gate>(
        &mut self,
        rt: &R,
        input: &mut I,
        gate: &G,
    ) -> Option<WorkerEnd> {
        let pass = self.passes.pop()?;
        let (pass, end) = read_client(rt, &self.shared, pass, 0, input, gate);
        self.passes.push(pass).ok()?;
        Some(end)
    }

    /// Reads what an outstation sends, with the last pass; if there is one.
    pub fn read_outstation<R: Wait + AllocGlobal, I: Incoming, G: Gate>(
        &mut self,
        rt: &R,
        source: &Source,
        input: &mut I,
        gate: &G,
    ) -> Option<WorkerEnd> {
        let pass = self.passes.pop()?;
        let history = open_line()?;
        let (pass, end) = read_alone::<L, Brand, R, I, G>(
            rt,
            &self.shared,
            pass,
            source,
            input,
            history,
            gate,
        );
        self.passes.push(pass).ok()?;
        Some(end)
    }

    /// Writes to client 0, with the last pass; if there is one.
    #[tactic(auto, using(crate::proofs::Anybody::anybody_pumps))]
    pub fn write_client<R: Wait, W: Outgoing, G: Gate>(
        &mut self,
        rt: &R,
        writer: &mut W,
        gate: &G,
    ) -> Option<WorkerEnd> {
        let pass = self.passes.pop()?;
        let (pass, end) = write_client(rt, &self.shared, pass, 0, writer, gate);
        self.passes.push(pass).ok()?;
        Some(end)
    }

    /// Ends the core: how many calls were made, and what was recorded, if all passes are there.
    pub fn end<R: Wait>(self, rt: &R) -> Option<(u64, Recorder)> {
        let TestCore { shared, passes } = self;
        let total = total_of(rt, &shared, passes)?;
        let (hub, recorder) = shared.into_parts();
        drop(hub);
        Some((total, recorder))
    }

    /// Ends the core: how many calls were made, if all passes are there.
    pub fn total<R: Wait>(self, rt: &R) -> Option<u64> {
        let TestCore { shared, passes } = self;
        total_of(rt, &shared, passes)
    }
}

/// How many calls were made on a core, if all passes are there.
fn total_of<L: Course, R: Wait>(rt: &R, shared: &Shared<L>, passes: Vec<Pass<L>>) -> Option<u64> {
    match shared.close(rt, passes) {
        Ok(closed) => Some(closed.total),
        Err(_) => None,
    }
}
