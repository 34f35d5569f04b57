//! A step that is kept.
ghost use Rattle.std.specs.Prelude.{◌≡◌};
ghost use Rattle.run_shared.specs.Kept.{step_of};

use dnp_app::KeptResponse;
use gw_steps::Step;
use std::marker::Model;

/// What is kept of a step: of a fragment its octets alone, since what it reports follows from them and may take 600
/// times as much.
#[derive(Drop)]
pub enum Kept {
    /// A fragment that came at a moment, in milliseconds.
    Fragment { response: KeptResponse, moment: u64 },
    /// A step without a fragment.
    Other(Step),
}

/// A step that is kept.
#[derive(Drop)]
pub struct KeptStep {
    kept: Kept,
}

impl Model for KeptStep {
    ghost use Rattle.gw_steps.specs.declared.step.Step.{Step};
    ghost use Rattle.run_shared.specs.Kept.{step_of};

    ghost Value = { Step };

    ghost view = { λ k. step_of k.kept };
}

impl KeptStep {
    /// Keeps a step.
    pub fn of(step: Step) -> KeptStep
        ensures { result ≡ step }
    {
        let kept = match step {
            Step::Fragment { response, moment } => Kept::Fragment {
                response: KeptResponse::of(response),
                moment,
            },
            other => Kept::Other(other),
        };
        KeptStep { kept }
    }

    /// What is kept of it.
    pub fn kept(&self) -> &Kept
        ensures { step_of result.now ≡ self.now }
    {
        &self.kept
    }
}
