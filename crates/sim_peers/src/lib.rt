//! The peers of a simulated gateway: DNP3 outstations, IEC 104 control centres, the network on the way to them, virtual time,
//! and the numbers from which a seed draws all that happens.
#![tactic(auto)]

mod centre;
mod log;
mod numbers;
mod outstation;
mod pipe;
mod random;
mod scenario;
mod site;
mod virtual_clock;

pub use centre::Centre;
pub use log::Log;
pub use numbers::{Numbers, Range};
pub use outstation::Outstation;
pub use pipe::{Piece, Pipe, Weather};
pub use random::Random;
pub use scenario::{Number, Scenario};
pub use site::{FIRST_COMMON, FIRST_CONTROL, FIRST_LINK, FIRST_POINT, MASTER, settings_of};
pub use virtual_clock::VirtualClock;
