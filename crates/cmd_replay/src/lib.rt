//! `gateway replay`: steps of the core in, one a line; its replies out. And the lines that are written for a fragment and its
//! ASDUs.
#![tactic(auto)]

mod fragment_text;
mod frame;
mod instruction;
mod player;
mod refusal;
mod reply_text;

pub use fragment_text::{push_accepted, write_refusal};
pub use gw_hub::{Hub, Reply, Step, StepFault, Why};
pub use iec_apci::ApciFault;
pub use instruction::{Instruction, read_instruction};
pub use player::{Played, Player, play, replay};
pub use refusal::{StepRefusal, write_refused};
pub use reply_text::push_reply;
