//! The course of a core: the one history of its calls, which exists in proofs alone.

use gw_steps::{Reply, Step, StepFault};
use run_log::{Naming, Opened};
use std::marker::{Brand, Model};
use std::sync::ledger::Ledger;

/// A step that was made, and what it was answered, as the history has it.
#[derive(Drop)]
pub struct Made {
    pub(crate) step: Step,
    pub(crate) reply: Result<Reply, StepFault>,
}

impl Model for Made {
    ghost use Rattle.gw_steps.specs.Runs.{Entry};

    ghost Value = { Entry };

    ghost view = { λ m. record { step = m.step; reply = m.reply } };
}

/// Which core it is: the name of its ledger and of its history, the settings that its hub runs with, and who makes which
/// calls. Each call of a program picks it.
pub trait Course: Ledger + Naming {
    ghost use Rattle.gw_map.specs.Settings.{Setup};
    ghost use Rattle.run_shared.specs.Roles.{Roles};

    ghost setup: { Setup };

    ghost roles: { Roles };
}

impl Course for Brand {
    ghost use Rattle.gw_steps.specs.Example.{setup as by_example};
    ghost use Rattle.run_shared.specs.Roles.{anybody};

    ghost setup = { by_example };

    ghost roles = { anybody };
}

/// A history in which no call was made yet; none where somebody added to it before it was opened, which nobody can.
pub fn open_course() -> Option<Opened<Made>> {
    Opened::new()
}
