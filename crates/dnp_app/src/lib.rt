//! Fragments of the DNP3 application layer (IEEE Std 1815, clause 4): reading a response, the
//! confirmation of one, and writing requests.
#![tactic(auto)]

mod confirmation;
mod echoed;
mod examples;
mod fault;
mod kept;
mod law;
mod operation;
mod request;
mod response;
mod skipped;

pub use confirmation::confirm;
pub use echoed::Echo;
pub use examples::{
    control_requests_by_example, controls_by_example, echoes_by_example, fragments_by_example,
    requests_by_example, stepped_over_by_example,
};
pub use fault::AppFault;
pub use kept::KeptResponse;
pub use law::{controls_apart, one_echo, taken_as_sent};
pub use operation::{Operation, control_request};
pub use request::{Request, clear_restart, disable, enable, read_poll, record_time, write_time};
pub use response::{ApplicationControl, Response, read_response};
