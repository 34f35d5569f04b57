//! The laws of every run of the step relation. Their premise: the run is sound. A hub keeps it by its type.
ghost use Rattle.std.specs.Prelude.{List};
ghost use Rattle.gw_map.specs.Settings.{Setup};
ghost use Rattle.gw_steps.specs.Runs.{AtEach, Entry};
ghost use Rattle.gw_steps.specs.Premises.{IsSoundRun};
ghost use Rattle.law_fates.specs.Fates.{HasOneFateEach};
ghost use Rattle.law_fates.specs.Told.{TellsFates};

/// At each point of a run: each order that was accepted so far has ended, and that was told just once, of its outstation
/// and its client, in the step that ended it; or it is on its way. No end is told of anything else.
pub fn each_order_has_one_fate()
    ensures { (setup : Setup) (past : List Entry) → IsSoundRun setup past → AtEach (HasOneFateEach setup) past }
{}

/// At each point of a run: what a step tells clients of their orders is what became of these, one after the other: an order
/// is told done exactly where its fate is that the outstation did it. Nobody is told of an order whose session has ended.
pub fn clients_are_told_of_fates()
    ensures { (setup : Setup) (past : List Entry) → IsSoundRun setup past → AtEach (TellsFates setup) past }
{}
