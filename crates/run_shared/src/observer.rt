//! Who is told of the steps that workers make.

use gw_steps::{Effects, Pumps, Reply, Step, StepFault, StepKind};

/// Who is told of each step once it was made, where no lock is held: of those of one worker in their order, each once. A call
/// that takes its time holds the worker.
pub trait Observer {
    /// What is kept of a step while it is made, since the core takes it.
    type Kept;

    /// A step is about to be made.
    fn keep(&self, step: &Step) -> Self::Kept;

    /// It was made: its number, counted over all steps from 1, what it was about, what it was answered with, and what it did
    /// besides. Where the answer is `Spent`, none was made, and the effects are those of the one before.
    fn step(
        &self,
        kept: Self::Kept,
        number: u64,
        kind: StepKind,
        reply: &Result<Reply, StepFault>,
        effects: &Effects,
    );

    /// Pumps were made, which are told together.
    fn pumps(&self, pumps: &Pumps<'_>);
}
