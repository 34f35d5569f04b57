//! ASDUs of IEC 60870-5-101 in control direction: commands, interrogations and the read command.
#![tactic(auto)]

pub mod causes;
mod command;
mod examples;
mod fault;
pub mod laws;
mod mirroring;
mod reading;
mod unknown_asdu;

pub use command::{Action, Command, DoubleCommand, SetpointCommand, SingleCommand};
pub use examples::{bit_examples, command_examples, fault_examples, spelling_examples};
pub use fault::CommandFault;
pub use mirroring::mirror;
pub use reading::read_command;
pub use unknown_asdu::UnknownAsdu;
