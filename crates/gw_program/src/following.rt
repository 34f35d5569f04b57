//! Who follows the values of points besides control centres, as the options of `gateway run` say.

use cmd_line::RunOptions;
use cmd_programs::Names;
use gw_map::Settings;
use gw_model::Memory;
use run_event_file::EventFile;
use run_server::{EventQueue, Values};
use run_startup::Obstacle;
use run_values::Points;
use std::alloc::{AllocError, Global};

/// What is followed, as it stands before anything is served.
#[derive(Drop)]
pub struct Followed {
    pub points: Points,
    /// Spontaneous observations on their way to a file, where they are written.
    pub queue: Option<EventQueue>,
    shows_values: bool,
}

impl Followed {
    /// What the options ask for, of settings with these names.
    pub fn of(
        alloc: Global,
        settings: &Settings,
        names: &Names,
        asked: &RunOptions<'_>,
    ) -> Result<Followed, Memory> {
        let queue = match asked.events {
            Some(_) => Some(EventQueue::new(alloc)?),
            None => None,
        };
        let points = if asked.values || queue.is_some() {
            Points::of(alloc, settings, names)?
        } else {
            Points::none(alloc)
        };
        Ok(Followed {
            points,
            queue,
            shows_values: asked.values,
        })
    }

    /// The values of points, where they are shown.
    pub fn values(&self, alloc: Global) -> Result<Option<Values<'_>>, AllocError> {
        if self.shows_values {
            Ok(Some(Values::new(alloc, &self.points)?))
        } else {
            Ok(None)
        }
    }
}

/// The file of events that the options ask for, if they do.
pub fn event_file<'a>(
    rt: &'a HostRuntime,
    asked: &RunOptions<'a>,
) -> Result<Option<EventFile<'a, HostRuntime>>, Obstacle<'a>> {
    let Some(path) = asked.events else {
        return Ok(None);
    };
    match EventFile::open(rt, path, asked.events_keep) {
        Ok(file) => Ok(Some(file)),
        Err(failure) => Err(Obstacle::Events(path, failure)),
    }
}
