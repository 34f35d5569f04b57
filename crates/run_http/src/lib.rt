//! Requests of HTTP for the status: reading one, and the octets that answer it (RFC 9110, RFC 9112).
#![tactic(auto)]

mod answering;
mod query;
mod receiving;
mod request;

pub use answering::{answer, refuse};
pub use query::Query;
pub use receiving::{MOST_FIELDS, MOST_OCTETS, receive};
pub use request::{HttpRequest, RequestFault, Resource};
