//! A call that was recorded.

use crate::kept::KeptStep;
use gw_steps::{Reply, StepFault};

/// A step that an actor asked for, and what it was answered.
#[derive(Drop)]
pub struct Entry {
    /// Who asked, by its position.
    pub actor: usize,
    /// The how-manieth call of this actor it was, from 1.
    pub ordinal: u64,
    pub step: KeptStep,
    pub reply: Result<Reply, StepFault>,
}
