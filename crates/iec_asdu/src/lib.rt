//! ASDUs of IEC 60870-5-101: process information in monitor direction.
#![tactic(auto)]

mod elements;
mod examples;
mod fault;
pub mod laws;
mod packing;
mod reading;
mod sizes;
mod types;
mod writing;

pub use elements::{BitString, CounterReading, DoublePoint, ScaledValue, SinglePoint};
pub use examples::{asdu_examples, fault_examples, packing_examples, timed_examples};
pub use fault::AsduFault;
pub use reading::{Monitor, read_monitor};
pub use writing::{SPONTANEOUS, Written, write_monitor};
