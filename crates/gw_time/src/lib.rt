//! Instants, and the time tags of IEC 60870-5-101 that show them as the civil time of the station.
#![tactic(auto)]

mod binary_time;
pub mod examples;
mod fault;
pub mod laws;
mod rule;
mod shown;
mod tag;
mod zone;

pub use fault::TagFault;
pub use tag::{from_tag, has_tag, to_tag};
pub use zone::Zone;
