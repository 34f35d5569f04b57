//! How a run of pumps went.

use gw_steps::{Reply, StepFault};

/// How a run of pumps for a client ended.
#[derive(Clone, Copy)]
pub enum Pumped {
    /// With this answer, which is no APDU.
    Ended(Result<Reply, StepFault>),
    /// There may be more.
    More,
}

impl Pumped {
    /// The answer that is no APDU, if it ended with one.
    pub fn end(self) -> Option<Result<Reply, StepFault>> {
        match self {
            Pumped::Ended(reply) => Some(reply),
            Pumped::More => None,
        }
    }
}

/// A run of pumps for a client.
#[derive(Clone, Copy)]
pub struct PumpRun {
    /// The number of its first call, counted over all calls from 1, which no contract sees; 0 where none was made. The others
    /// follow it.
    pub first: u64,
    /// How it ended.
    pub ended: Pumped,
}
