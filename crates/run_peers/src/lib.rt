//! The gateway's peers: the links to the outstations; the connections of clients, and which gives way if all slots are
//! taken; what is known of each, and the reporter by which an operator is told of it.
#![tactic(auto)]

mod address_rows;
mod callers;
mod client_connection;
mod connections;
mod last_tick;
mod looks;
mod outstation_link;
mod peers;
mod points;
mod reasons;
mod reporter;
mod sequence;
mod tcp;

pub use address_rows::AddressRows;
pub use callers::Callers;
pub use client_connection::ClientConnection;
pub use outstation_link::{OutstationLink, links_of};
pub use peers::{ClientRecord, OutstationRecord, Peers};
pub use reasons::Reasons;
pub use reporter::Reporter;
pub use sequence::{Sequence, StepSource};
pub use tcp::shut;
