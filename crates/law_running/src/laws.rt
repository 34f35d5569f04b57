//! The promises of runs, of the shared core.
ghost use Rattle.std.specs.Prelude.{◌≡◌, ℕ, List, IfErr, IfOk};
ghost use Rattle.gw_map.specs.Settings.{Setup};
ghost use Rattle.gw_steps.specs.Runs.{Entry};
ghost use Rattle.run_log.specs.Follows.{Known};
ghost use Rattle.run_ends.specs.declared.sent.Sending.{Sending};
ghost use Rattle.run_shared.specs.Reached.{entries_of, IsCourse};
ghost use Rattle.run_shared.specs.Turn.{Pass as Seen};
ghost use Rattle.gw_threads.specs.Sends.{SendsAllGiven};
ghost use Rattle.law_running.specs.Handed.{HandsOver};
ghost use Rattle.law_running.specs.Kept.{IsKeptRun, IsPromised, KeepsAll};

use run_shared::{CloseFault, Closed, Core, Course, Machine, Pass, Shared};
use std::sync::Wait;

/// The machine under the lock is the state after the one history of its calls, and at each place of that history all
/// promises hold. It does nothing.
pub fn core_keeps_promises<L: Course, M: Machine>(core: &Core<L, M>)
    ensures { IsPromised L.setup core.now.hub core.now.past core.now.made }
{
    core.attest();
}

/// At each place of the history that a pass knows behind a call, all promises hold.
#[tactic(auto, using(crate::proofs::Keeping::course_promised))]
pub fn courses_keep_promises()
    ensures { (setup : Setup) (past : List Entry) → IsCourse setup past → KeepsAll setup past }
{}

/// Of each accepted execute one DIRECT_OPERATE at most is handed to the outstation's connection, or one SELECT at most and
/// behind it one OPERATE at most; and no other control request is: what an outstation's writer has sent, together with all
/// that its polls gave before, from the first state on.
#[tactic(auto, using(crate::proofs::Handing::hands_over))]
pub fn orders_go_out_once()
    ensures { (setup : Setup) (outstation : ℕ) (mine after : Seen) (front : Known Sending)
        → IsCourse setup (entries_of after.seen) → SendsAllGiven outstation mine after front
        → HandsOver setup outstation mine after front }
{}

/// Ends the counting on a shared machine (`Shared::close`): all promises were kept at each place of the one history of the
/// calls that were counted.
pub fn close<L: Course, M: Machine, R: Wait>(
    shared: &Shared<L, M>,
    rt: &R,
    passes: Vec<Pass<L>>,
) -> Result<Closed, (CloseFault, Vec<Pass<L>>)>
    ensures kept { IfOk result (λ closed. IsKeptRun L.setup closed.total) }
    ensures err { IfErr result (λ e. (e.0 ≡ CloseFault.Missing) × (e.1 ≡ passes)) }
{
    shared.close(rt, passes)
}
