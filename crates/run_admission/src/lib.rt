//! Clients that connect: what accepts them, which of them may, the slots that they get, and those that wait for one.
#![tactic(auto)]

mod accepting;
mod acceptor;
mod client_stream;
mod input;
mod listener;
mod network;
mod refusals;
mod slots;
mod waiting_clients;

pub use accepting::{Accepting, AwaitedClient, accept};
pub use acceptor::Acceptor;
pub use client_stream::ClientStream;
pub use input::await_end;
pub use listener::look_up_from_accept;
pub use network::Network;
pub use slots::{AcceptedClient, Slots};
