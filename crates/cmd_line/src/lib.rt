//! The program's command line, read by `clap`.
#![tactic(auto)]

mod reading;

pub use reading::{Asked, LineFault, RunOptions, VERSION, command_line};
