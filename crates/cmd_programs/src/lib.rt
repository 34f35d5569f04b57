//! The program's commands that serve nobody and read files alone: `check` and `points`; and how each command reads the files that
//! it is given, and tells what it was refused.
#![tactic(auto)]

mod checking;
mod commit;
mod failure_of_file;
mod lists;
mod refusal;
mod settings_file;
mod system;

pub use checking::{CheckForm, check};
pub use cmd_points::Names;
pub use commit::commit_of;
pub use failure_of_file::FileFailure;
pub use lists::{Named, Unlisted, points, refuse_list};
pub use refusal::{REFUSED, USAGE, complain, refuse, refuse_file, refuse_for};
pub use settings_file::{BadFile, read_octets, settings_of};
pub use system::System;
