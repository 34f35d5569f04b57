//! What every part of the gateway speaks of: points and reports of DNP3 outstations, observations
//! for IEC 60870-5-104 clients, controls, the one error of a call that needs memory; and octets in a queue.
#![tactic(auto)]

mod control;
mod element;
mod memory;
mod observation;
mod places;
mod point;
mod poll;
mod queue;
mod rule;

pub use control::{Act, Ended, Intent, Order, Shape};
pub use element::Element;
pub use memory::Memory;
pub use observation::{Observation, Quality, Value};
pub use places::{CLIENTS, OUTSTATIONS};
pub use point::{Kind, ObjectKey, PointKey, Raw, Report, Stamp};
pub use poll::Poll;
pub use queue::OctetQueue;
pub use rule::{ClockRule, Daylight, RuleDay, RuleMoment};
