//! What fragments say.

use crate::task::Task;

/// What a fragment said that was accepted, but for what its points are.
#[derive(Clone, Copy)]
pub struct Reported {
    /// The task whose request it answers; none of an unsolicited response.
    pub answers: Option<Task>,
    /// IIN1 and IIN2 (IEEE Std 1815, 4.2.2.6).
    pub indications: [u8; 2],
    /// Whether it was an unsolicited response.
    pub is_unsolicited: bool,
    /// How many observations it had.
    pub observations: usize,
    /// How many of them were events.
    pub events: usize,
}
