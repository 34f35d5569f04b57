//! What the core promises of every run of the step relation, at each of its points: laws on each client's life and
//! session, and on steps. `specs/Promises.antt` lists them, and `specs/Connections.antt` those of each client's
//! connection: for which cause an APDU closes it, which U formats are put out, and when its timers act; and why a step
//! isn't made. Each has a file of its own.
#![tactic(auto)]

mod connection_examples;
mod examples;
mod laws;

pub use connection_examples::{
    closes_by_example, faults_by_example, pumps_by_example, receipts_by_example, tests_by_example,
};
pub use examples::{
    all_stations_by_example, orders_by_example, promises_by_example, rows_by_example,
};
pub use laws::{connections_are_kept, runs_keep_promises};
