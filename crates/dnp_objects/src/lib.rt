//! The object part of a DNP3 response: which objects are known and how long they are, and the
//! object headers (IEEE Std 1815, clause 4.2.2.7 and the object library of Annex A).
#![tactic(auto)]

mod examples;
mod fault;
mod header;
mod law;
mod numbers;
mod object;
mod range;

pub use examples::{
    faults_by_example, headers_by_example, most_headers_by_example, sizes_by_example,
};
pub use fault::{HeaderFault, ObjectFault};
pub use header::{Header, headers};
pub use law::one_reading;
pub use numbers::number;
pub use object::{Size, length_of};
