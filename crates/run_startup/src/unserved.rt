//! Why nothing is served.

use crate::obstacle::Obstacle;
use crate::starting::front_of;
use crate::system::Environment;
use cmd_programs::{BadFile, USAGE, Unlisted, complain, refuse_file, refuse_for, refuse_list};
use gw_model::Memory;
use std::alloc::AllocError;
use std::io;
use thiserror::Error;

/// Why nothing is served.
#[derive(Debug, Drop, Error)]
pub enum Unserved<'a> {
    /// The settings can't be used.
    #[error(transparent)]
    Settings(#[from] BadFile<'a>),
    /// The list with the names can't be used.
    #[error(transparent)]
    Names(#[from] Unlisted<'a>),
    /// What is behind `--allow` is no address.
    #[error("--allow takes an address, or an address, / and a number of bits")]
    Allow,
    /// A record is asked for in two ways.
    #[error("--record and --record-folder can't be used together")]
    TwoRecords,
    /// What is kept is bounded, and nothing is.
    #[error("--record-keep needs --record-folder")]
    KeptNowhere,
    /// Values are to be shown, and nothing is.
    #[error("--values needs --status")]
    ShownNowhere,
    /// What is kept of events is bounded, and none are written.
    #[error("--events-keep needs --events")]
    NoEvents,
    /// Events would go where `steps N` does.
    #[error("--events takes a file or a named pipe, not standard output")]
    EventsOnOutput,
    /// Events would be written into another file of the gateway.
    #[error("--events can't be the settings file, a list or the record")]
    EventsOverwriting,
    /// A socket can't be opened, or a file can't be made.
    #[error(transparent)]
    Hindered(Obstacle<'a>),
    /// Memory, or a thread, was refused.
    #[error("no memory")]
    Memory(#[from(alloc)] AllocError),
}

impl<'a> From<Memory> for Unserved<'a> {
    fn from(_memory: Memory) -> Unserved<'a> {
        Unserved::Memory(AllocError)
    }
}

/// Tells why nothing is served; gives the status.
pub fn refuse_run<S: Environment>(rt: &S, why: &Unserved<'_>) -> io::Result<u8> {
    match why {
        Unserved::Settings(bad) => refuse_file(rt, front_of(rt), bad),
        Unserved::Names(why) => refuse_list(rt, front_of(rt), why),
        Unserved::Hindered(obstacle) => {
            let status = refuse_for(rt, obstacle.word())?;
            complain(rt, front_of(rt), obstacle);
            Ok(status)
        }
        Unserved::Memory(_) => refuse_for(rt, "memory"),
        _ => {
            eprintln!(rt; "error: {why}")?;
            Ok(USAGE)
        }
    }
}
