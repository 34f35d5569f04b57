//! What can be told of a running gateway: how well all is, and the figures of its outstations and clients, as Prometheus
//! reads them and as a page for people.
#![tactic(auto)]

mod client_figure;
mod family;
mod gateway_figure;
mod indications;
mod metrics;
mod outstation_figure;
mod page;
mod rows;
mod state;
mod status;
mod time;
mod verdict;

pub use cmd_text::Escaped;
pub use indications::tell_of_trouble;
pub use metrics::Metrics;
pub use page::{Digest, Page, SiteName};
pub use state::{ClientState, OutstationState};
pub use status::{
    ClientStatus, Closes, Identity, LeftOut, OrderStatus, OutstationStatus, PointStatus,
    ProcessStatus, Refusals, Status,
};
pub use time::Instant;
pub use verdict::{Health, Life, Verdict, is_alive};
