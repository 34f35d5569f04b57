//! The core's part for controls: clients' selections, and the orders on their way to outstations.
#![tactic(auto)]

mod accepted;
mod answer;
mod asked;
mod controls;
pub mod examples;
mod intent;
pub mod laws;
mod outgoing;
mod refusal;
mod selection;

pub use accepted::{Accepted, UnderWay};
pub use answer::{Answer, Outcome};
pub use controls::Controls;
pub use intent::control_for;
pub use outgoing::{MOST_WAITING, Outgoing};
pub use refusal::Refusal;
