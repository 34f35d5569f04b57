//! What becomes of orders in every run of the core, by what steps tell besides their replies: each accepted order ends in
//! exactly one fate, in the step that ends it, or is on its way.
#![tactic(auto)]

mod examples;
mod laws;

pub use examples::fates_by_example;
pub use laws::{clients_are_told_of_fates, each_order_has_one_fate};
