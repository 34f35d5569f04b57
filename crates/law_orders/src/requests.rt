//! The law of every run of the step relation. Its premises: the run is sound, and the index of each control of the
//! settings has 16 bits. A hub keeps them by its type.
ghost use Rattle.std.specs.Prelude.{List};
ghost use Rattle.std.specs.List.{AllByRecursion};
ghost use Rattle.gw_map.specs.Settings.{Setup};
ghost use Rattle.gw_steps.specs.Runs.{AtEach, Entry};
ghost use Rattle.gw_steps.specs.Premises.{IsSoundRun};
ghost use Rattle.law_orders.specs.Bonds.{HasShortIndex};
ghost use Rattle.law_orders.specs.Requests.{Requests};

/// At each point of a run: a request is given by a poll alone, and is the first that is due in the order of rank, with
/// the next sequence number; a poll gives nothing exactly where a request awaits its answer or nothing is due.
pub fn requests_are_as_due()
    ensures { (setup : Setup) (past : List Entry) → IsSoundRun setup past → AllByRecursion HasShortIndex setup.controls
        → AtEach (Requests setup) past }
{}
