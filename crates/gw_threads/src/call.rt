//! Calls on the core, of which an observer is told.
ghost use Rattle.std.specs.Prelude.{◌≡◌, ℕ};
ghost use Rattle.run_shared.specs.Roles.{MayMake};
ghost use Rattle.run_shared.specs.Turn.{Answers};

use run_shared::{Calls, Course, Observer, Pass, Reply, Step, StepFault};
use std::sync::Wait;

/// Makes a step on the shared core, and tells an observer of it. Gives the reply.
pub fn make_call<L: Course, S: Calls<L>, R: Wait, O: Observer>(
    rt: &R,
    shared: &S,
    pass: &mut Pass<L>,
    step: Step,
    observer: &O,
) -> Result<Reply, StepFault>
    requires may { MayMake L.roles pass.old.actor step }
    ensures answered { (number : ℕ) × Answers L.setup pass.old pass.new step (number, result) }
    ensures own { pass.new.actor ≡ pass.old.actor }
{
    let kind = step.kind();
    let kept = observer.keep(&step);
    let (number, reply) = shared.step(rt, pass, step);
    observer.step(kept, number, kind, &reply, pass.effects());
    reply
}
