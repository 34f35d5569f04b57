//! Runs of pumps.

use crate::step::{Reply, StepFault};

/// Pumps for a client that were made one after another, while nobody else made a step: their numbers follow one another,
/// and their moment is the same.
#[derive(Clone, Copy)]
pub struct Pumps<'a> {
    /// The number of the first, counted over all steps from 1.
    pub first: u64,
    pub client: u8,
    /// In milliseconds.
    pub moment: u64,
    /// The octets of the APDUs that they were answered with, one APDU after another.
    pub apdus: &'a [u8],
    /// The reply to one more pump, which was no APDU.
    pub end: Option<Result<Reply, StepFault>>,
}
