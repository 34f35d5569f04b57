//! What a running gateway steps, captured as lines of a replay in one file, and the lines of the replies in another.
//!
//! A worker keeps the line of a step before it is made, and hands it over with the number and the reply that the core
//! gave. One thread puts what all workers handed over in the order of the numbers, and writes it, in one piece or in several that
//! follow each other. `replay` plays such lines.
#![tactic(auto)]

mod capture;
mod files;
mod kept;
mod lines;
mod sorter;
mod step_line;
mod waiting;

pub use capture::Capture;
pub use cmd_replay::{Instruction, push_reply, read_instruction};
pub use cmd_text::{OnePiece, Pieces};
pub use gw_steps::Pumps;
pub use kept::Kept;
pub use lines::Lines;
pub use step_line::{has_line, push_step};
