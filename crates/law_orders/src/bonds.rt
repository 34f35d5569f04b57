//! The laws of every run of the step relation. Their premises: each state of the run is sound, and the index of each
//! control of the settings has 16 bits. A hub keeps them by its type.
ghost use Rattle.std.specs.Prelude.{◌≡◌, List, []};
ghost use Rattle.gw_map.specs.Settings.{Setup};
ghost use Rattle.gw_steps.specs.Runs.{AtEach, Entry, IsRun};
ghost use Rattle.gw_steps.specs.Sound.{LeavesSound};
ghost use Rattle.law_orders.specs.Bonds.{Bonds, IsControlRun, OperatesNothing, OperatesOnce};
ghost use Rattle.law_orders.specs.ToldOnce.{TellsOnce};

/// At each point of a run: a request that names an order asks what the command of its execute asks, no other one is a
/// control request, and for each execute there was at most one DIRECT_OPERATE, or one SELECT and after its success
/// one OPERATE.
pub fn requests_are_bound()
    ensures { (setup : Setup) (past : List Entry) → IsControlRun setup past → AtEach (Bonds setup) past }
{}

/// At each point of a run, at most one OPERATE or DIRECT_OPERATE was given for each order, whatever was lost or late.
pub fn orders_are_operated_once()
    ensures { (setup : Setup) (past : List Entry) → IsControlRun setup past → AtEach OperatesOnce past }
{}

/// At each point of a run, each outcome that was told is that of one accepted execute: it is told the client of that
/// execute, of its command, and once. It is positive exactly where the newest request for the order was OPERATE or
/// DIRECT_OPERATE, and the outstation took what that asked.
pub fn outcomes_are_of_executes()
    ensures { (setup : Setup) (past : List Entry) → IsControlRun setup past → AtEach (TellsOnce setup) past }
{}

/// Without controls in the settings nothing is operated: no request of a run is a control request.
pub fn nothing_is_operated_without_controls()
    ensures { (setup : Setup) (past : List Entry)
        → setup.controls ≡ [] → IsRun setup past → AtEach (LeavesSound setup) past → AtEach OperatesNothing past }
{}
