//! What keeps the gateway from serving.

use cmd_programs::FileFailure;
use cmd_text::Plain;
use run_journal::Failure;
use std::io::ErrorKind;
use std::net::SocketAddr;
use thiserror::Error;

/// What keeps the gateway from serving, other than its settings and memory.
#[derive(Debug, Drop, Error)]
pub enum Obstacle<'a> {
    /// The status can't be served at this place.
    #[error("can't serve the status on {place}: {1}", place = Plain(*.0))]
    Status(&'a str, Failure),
    /// Nobody can listen at this place.
    #[error("can't listen on {place}: {1}", place = Plain(.0.as_str()))]
    Listen(String, Failure),
    /// A file of the record can't be made: how its name begins, how it ends, and why.
    #[error("can't write the record {name}{1}: {2}", name = Plain(*.0))]
    Record(&'a str, &'static str, FileFailure),
    /// The file of events can't be written.
    #[error("can't write the events {name}: {1}", name = Plain(*.0))]
    Events(&'a str, FileFailure),
    /// The record would be written into the settings file.
    #[error("the record would overwrite the settings file")]
    Overwriting,
}

impl<'a> Obstacle<'a> {
    /// That a file of the record can't be made: how its name begins and ends, and what the system says.
    pub fn unmade(name: &'a str, end: &'static str, kind: ErrorKind) -> Obstacle<'a> {
        Obstacle::Record(name, end, FileFailure::of(kind, "folder"))
    }

    /// What is told of it on standard output.
    pub fn word(&self) -> &'static str {
        match self {
            Obstacle::Status(..) => "status",
            Obstacle::Listen(..) => "listen",
            Obstacle::Record(..) | Obstacle::Overwriting => "record",
            Obstacle::Events(..) => "events",
        }
    }
}

/// Why nobody can listen at a place. Where it isn't an address alone, its host's name is looked up first.
pub fn failure_at(place: &str, kind: ErrorKind) -> Failure {
    match place.parse::<SocketAddr>() {
        Ok(_address) => Failure::from(kind),
        Err(_) => Failure::of_look_up(kind),
    }
}
