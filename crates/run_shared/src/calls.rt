//! What passes make calls on. Workers know the core behind its lock by this trait.
ghost use Rattle.std.specs.Prelude.{◌≡◌, ◌≤◌, length};
ghost use Rattle.gw_steps.specs.declared.step.Step.TheVariants as steps;
ghost use Rattle.run_shared.specs.Pumping.{IsPumpedRun, MayGoOn};
ghost use Rattle.run_shared.specs.Roles.{MayMake};
ghost use Rattle.run_shared.specs.Turn.{Answers};

use crate::course::Course;
use crate::figures::Figures;
use crate::holdback::Load;
use crate::pass::Pass;
use crate::pumped::PumpRun;
use gw_model::Observation;
use gw_steps::{NewsPiece, Reply, Step, StepFault};
use iec_apci::Batch;
use run_clock::Bell;
use std::sync::Wait;

/// What passes make calls on, from many threads.
pub trait Calls<L: Course> {
    /// Makes a call under the lock (`Core::step`), and wakes those whom the step may serve. Gives the call's number and
    /// its reply.
    fn step<R: Wait>(
        &self,
        rt: &R,
        pass: &mut Pass<L>,
        step: Step,
    ) -> (u64, Result<Reply, StepFault>)
        requires may { MayMake L.roles pass.old.actor step }
        ensures { Answers L.setup pass.old pass.new step result };

    /// Pumps for a client under one hold of the lock (`Core::pump`), which serves nobody else.
    fn pump<R: Wait>(
        &self,
        rt: &R,
        pass: &mut Pass<L>,
        client: u8,
        moment: u64,
        batch: &mut Batch,
    ) -> PumpRun
        requires may { MayMake L.roles pass.old.actor (steps.Pump client moment) }
        ensures run { IsPumpedRun L.setup client pass.old pass.new batch.old batch.new result.ended }
        ensures more { MayGoOn pass.old pass.new batch.new result.ended }
        ensures own { pass.new.actor ≡ pass.old.actor };

    /// The bell that rings where something may be due towards an outstation; none beyond the 32nd.
    fn outstation_bell(&self, outstation: u8) -> Option<&Bell>;

    /// The bell that rings where something may wait for a client; none beyond the eighth.
    fn client_bell(&self, client: u8) -> Option<&Bell>;

    /// Whether a client is up.
    fn stands<R: Wait>(&self, rt: &R, client: u8) -> bool;

    /// Whether a fragment is to wait: a client for which news wait has no room for what it brings, and was given an APDU within
    /// the last two seconds, or acknowledged one. It isn't where it has waited for as long as it may; that is a shorter time
    /// where its outstation has an order that waits or is under way. Room that is there is kept until the fragment is taken.
    fn is_outrun<R: Wait>(&self, rt: &R, load: Load, moment: u64) -> bool;

    /// For how many milliseconds an outstation isn't to be asked, before this is to be asked again: since such a client has no
    /// room for as much as it brought last, or since its indications have requests follow each other that bring nothing. 0
    /// where no request is due, and where an order waits for it or is under way.
    fn rest<R: Wait>(&self, rt: &R, outstation: u8, moment: u64) -> u64;

    /// What is counted.
    fn figures<R: Wait>(&self, rt: &R) -> Figures;

    /// Copies the news from a number on under one hold of the lock, as many as find room, and tells which they are.
    fn copy_news<R: Wait>(&self, rt: &R, number: u64, room: &mut [Observation]) -> NewsPiece
        ensures room { length room.new ≡ length room.old }
        ensures few { result.count ≤ length room.old };

    /// Copies what is shown of the rows from a position on, likewise; how many these are.
    fn copy_picture<R: Wait>(&self, rt: &R, position: usize, room: &mut [Observation]) -> usize
        ensures room { length room.new ≡ length room.old }
        ensures few { result ≤ length room.old };

    /// Asks all workers to end.
    fn stop(&self);

    /// Whether the workers were asked to end.
    fn stopping(&self) -> bool;
}
