//! The parts of the core in lists, by position: the master towards each outstation (`Outstations`), and the station for
//! each client (`Clients`). A call changes the part that it names by that part's own word, or each part in turn.
#![tactic(auto)]

mod clients;
mod outstations;

pub use clients::Clients;
pub use outstations::Outstations;
