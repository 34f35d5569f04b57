//! The law of every run of the step relation. Its premises: the run is sound, and the index of each control of the
//! settings has 16 bits. A hub keeps them by its type.
ghost use Rattle.std.specs.Prelude.{List};
ghost use Rattle.std.specs.List.{AllByRecursion};
ghost use Rattle.gw_map.specs.Settings.{Setup};
ghost use Rattle.gw_steps.specs.Runs.{AtEach, Entry};
ghost use Rattle.gw_steps.specs.Premises.{IsSoundRun};
ghost use Rattle.law_orders.specs.Bonds.{HasShortIndex};
ghost use Rattle.law_orders.specs.Outcomes.{TellsDue};

/// At each point of a run: what a step tells of orders is what it has to tell. Each order's outcome is told once, in
/// the step that ends it, while the session of its execute stands.
pub fn outcomes_are_told_when_due()
    ensures { (setup : Setup) (past : List Entry) → IsSoundRun setup past → AllByRecursion HasShortIndex setup.controls
        → AtEach (TellsDue setup) past }
{}
