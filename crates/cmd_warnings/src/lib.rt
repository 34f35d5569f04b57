//! What reads like a slip in settings that are accepted: the warnings of `gateway check`, which `run` tells too.
#![tactic(auto)]

mod packing;
mod warning;
mod warnings;

pub use warning::Warning;
pub use warnings::{warnings_of, write_warnings};
