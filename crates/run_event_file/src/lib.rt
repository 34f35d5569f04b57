//! The file, or the named pipe, of `gateway run --events`: spontaneous observations as lines, which a thread of its own writes.
#![tactic(auto)]

mod file;
mod writing;

pub use file::EventFile;
pub use writing::EventWriter;
