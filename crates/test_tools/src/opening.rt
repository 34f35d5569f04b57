//! Hubs to test on, and what cores are made of.
ghost use Rattle.std.specs.Prelude.{◌≡◌, IfSome};
ghost use Rattle.run_shared.specs.Reached.{IsFirst};

use crate::asking::{Answer, steps_of, text_of};
use gw_hub::Hub;
use gw_map::Settings;
use gw_threads::{Made, Opened, Step, open_course};
use std::alloc::Global;
use std::sync::ledger::Blank;

/// A hub on the settings that a text is, if it is settings.
pub fn hub_on(alloc: Global, text: &str) -> Option<Hub>
    ensures { IfSome result (λ hub. IsFirst hub.setup hub) }
{
    let settings = Settings::read(alloc, text).ok()?;
    match Hub::new(alloc, settings) {
        Ok(hub) => Some(hub),
        Err(_) => None,
    }
}

/// What `Hub::run` answers the steps of these lines, as lines, on the settings that a text is; if they are steps and
/// settings, where there is memory.
pub fn replies_of_run(alloc: Global, settings: &str, lines: &str) -> Option<Vec<u8>> {
    let steps = steps_of(alloc, lines)?;
    let answers = run(alloc, Settings::read(alloc, settings).ok()?, steps)?;
    text_of(alloc, answers.as_slice())
}

/// What `Hub::run` answers, where there is memory.
fn run(alloc: Global, settings: Settings, steps: Vec<Step>) -> Option<Vec<Answer>> {
    let (hub, answers) = Hub::run(alloc, settings, steps).ok()?;
    drop(hub);
    Some(answers)
}

/// What a core is made of: a ledger for its actors, a history without calls, and a hub on which no step was made.
pub struct Opening {
    pub blank: Blank,
    pub history: Opened<Made>,
    pub hub: Hub,
}

impl Opening {
    /// For so many actors, on the settings that a text is, if it is settings.
    pub fn of(alloc: Global, actors: u64, text: &str) -> Option<Opening>
        ensures parts { IfSome result (λ opening. opening.blank.parts ≡ actors) }
        ensures first { IfSome result (λ opening. IsFirst opening.hub.setup opening.hub) }
    {
        let hub = hub_on(alloc, text)?;
        let history = open_course()?;
        Some(Opening {
            blank: Blank::new(actors),
            history,
            hub,
        })
    }
}
