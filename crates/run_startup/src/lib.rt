//! What `gateway run` does before it serves: it reads its settings and names, opens what it listens on, makes the files of its
//! record, and tells that it starts; and why it can't.
//!
//! A record may lie in a folder: the pieces of each run of the gateway, by number, and which runs are taken away if they are
//! more than may be kept. A piece is three files, as `20261129T101500Z-0001.run`, `.answers` and `.about`: the lines of its
//! steps, those of the replies, and what tells of both. The front is the run's name, the second in UTC at which it began. The
//! run under way holds its first `.about` under a lock of the system, so that another gateway with the same folder doesn't take
//! it away. Other files of the folder are let alone.
#![tactic(auto)]

mod about;
mod entrances;
mod files_of_record;
mod folder_listing;
mod obstacle;
mod piece_files;
mod piece_name;
mod pieces;
mod source;
mod starting;
mod system;
mod unserved;

pub use entrances::Entrances;
pub use files_of_record::{folder_files, record_files};
pub use obstacle::Obstacle;
pub use piece_files::PieceFiles;
pub use source::{Source, check_followers, check_records, read_source};
pub use starting::{is_journal, tell_start};
pub use system::Environment;
pub use unserved::{Unserved, refuse_run};
