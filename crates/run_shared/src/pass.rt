//! The right to make calls.
ghost use Rattle.std.specs.Prelude.{◌≡◌};
ghost use Rattle.run_shared.specs.Reached.{entries_of, IsCourse};
ghost use Rattle.run_shared.specs.Roles.{KeepsRoles};
ghost use Rattle.run_shared.specs.Told.{newest_effects};

use crate::course::{Course, Made};
use gw_steps::Effects;
use run_log::Front;
use std::marker::Model;
use std::sync::ledger::Share;

/// The right of one actor to make calls on a shared core, the count of those that it made, and what of the one history of
/// calls it has seen. A pass fits one core alone, since it has that core's type. It also has what its newest call did besides
/// what it was answered.
#[derive(Drop)]
pub struct Pass<L: Course> {
    pub(crate) share: Share<L>,
    pub(crate) actor: usize,
    pub(crate) effects: Effects,
    pub(crate) front: Front<Made, L>,
}

impl<L: Course> Model for Pass<L> {
    ghost use Rattle.std.specs.Prelude.{◌≡◌, ◌<◌, ◌≤◌, length};
    ghost use Rattle.run_shared.specs.Reached.{entries_of, IsCourse};
    ghost use Rattle.run_shared.specs.Roles.{KeepsRoles};
    ghost use Rattle.run_shared.specs.Told.{newest_effects};
    ghost use Rattle.run_shared.specs.Turn.{Pass as Seen};

    ghost Value = { Seen };

    ghost view = { λ p. record { actor = p.actor; made = p.share.amount; seen = p.front.log } };

    ghost invariant = { λ p. (p.share.parts ≡ 1) × (p.actor < L.parts) × (p.front.lane ≡ p.actor)
        × KeepsRoles L.roles p.front.log × IsCourse L.setup (entries_of p.front.log)
        × (p.effects.told ≡ newest_effects L.setup p.actor p.front.log) × (length L.setup.outstations ≤ p.effects.room) };
}

impl<L: Course> Pass<L> {
    /// Who makes the calls.
    pub fn actor(&self) -> usize
        ensures { result ≡ self.now.actor }
    {
        self.actor
    }

    /// Tells a proof what is known of the calls that it has seen: they are a run from the first state, and actors that may
    /// make them made them. It does nothing.
    pub fn attest(&self)
        ensures course { IsCourse L.setup (entries_of self.now.seen) }
        ensures roles { KeepsRoles L.roles self.now.seen }
    {
        let _actor = self.actor;
    }

    /// What its newest call did besides what it was answered: nothing before the first, and where that was refused.
    pub fn effects(&self) -> &Effects
        ensures { result.now.told ≡ newest_effects L.setup self.now.actor self.now.seen }
    {
        &self.effects
    }
}
