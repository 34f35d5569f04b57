//! The transport function of DNP3 (IEEE Std 1815-2012, clause 8): fragments of the application layer
//! from the segments that link frames deliver, and the segments that carry a fragment.
#![tactic(auto)]

mod answer;
mod assembler;
pub mod examples;
mod header;
pub mod laws;
mod segment;
mod series;
mod split;

pub use answer::{DropCause, Taken};
pub use assembler::Assembler;
pub use segment::Segment;
pub use split::{SegmentIter, segments};

/// The most octets of a fragment.
pub const FRAGMENT_LIMIT: usize = 2048;
