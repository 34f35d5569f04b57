//! Who may make which calls, and how many, and what the recorder keeps of them, by examples.
ghost use Rattle.std.specs.Prelude.{◌≡◌, [], ◌∷◌, Ok, Some};
ghost use Rattle.gw_steps.specs.State.{Hub};
ghost use Rattle.gw_steps.specs.declared.step.Step.TheVariants as steps;
ghost use Rattle.gw_steps.specs.declared.step.Reply.TheVariants as replies;
ghost use Rattle.run_shared.specs.Example.{left, on_tape};
ghost use Rattle.run_shared.specs.Pumping.{MayGoOn};
ghost use Rattle.run_shared.specs.Reached.{entry};
ghost use Rattle.run_shared.specs.Roles.{KeepsRoles, MayMake};
ghost use Rattle.run_shared.specs.Taped.{CountsEach, HasNewest};
ghost use Rattle.run_shared.specs.Turn.{last_call, Pass};
ghost use Rattle.run_shared.specs.declared.pumped.Pumped.TheVariants.{More};

/// Actor 7 alone pumps for client 3, and actor 5 alone polls outstation 2; anybody pumps for client 2, polls outstation 0, and
/// makes ticks.
pub fn calls_are_left()
    ensures one { MayMake left 7 (steps.Pump 3 0) }
    ensures other { MayMake left 6 (steps.Pump 3 0) → ⊥ }
    ensures poller { MayMake left 5 (steps.Poll 2 0 0) }
    ensures other_poller { MayMake left 7 (steps.Poll 2 0 0) → ⊥ }
    ensures others { MayMake left 6 (steps.Pump 2 0) × MayMake left 6 (steps.Poll 0 0 0) × MayMake left 6 (steps.Tick 0) }
    ensures kept { KeepsRoles left ((7, entry (steps.Pump 3 0) (Ok replies.Nothing))
        ∷ (5, entry (steps.Poll 2 0 0) (Ok replies.Nothing)) ∷ (6, entry (steps.Tick 0) (Ok (replies.Ticked 0))) ∷ []) }
    ensures not_kept { KeepsRoles left ((6, entry (steps.Tick 0) (Ok (replies.Ticked 0)))
        ∷ (6, entry (steps.Poll 2 0 0) (Ok replies.Nothing)) ∷ []) → ⊥ }
{}

/// As many calls can be counted as 64 bits count.
pub fn counted_by_64_bits()
    ensures { last_call ≡ 18446744073709551615 }
{}

/// A run of pumps that made no call, and gave nothing, has ended: it isn't told as one behind which there may be more.
pub fn pumps_get_on()
    ensures { (p : Pass) → MayGoOn p p [] More → ⊥ }
{}

/// Actor 1 made a tick, and then actor 0 one. The tape has the newer one, of actor 0 and of no other; and of each one call is counted.
pub fn calls_are_taped()
    ensures newest { (hub : Hub) → HasNewest (Some (on_tape hub 0)) ((0, entry (steps.Tick 5) (Ok (replies.Ticked 0)))
        ∷ (1, entry (steps.Tick 2) (Ok (replies.Ticked 0))) ∷ []) }
    ensures other { (hub : Hub) → HasNewest (Some (on_tape hub 1)) ((0, entry (steps.Tick 5) (Ok (replies.Ticked 0)))
        ∷ (1, entry (steps.Tick 2) (Ok (replies.Ticked 0))) ∷ []) → ⊥ }
    ensures counted { CountsEach (1 ∷ 1 ∷ []) ((0, entry (steps.Tick 5) (Ok (replies.Ticked 0)))
        ∷ (1, entry (steps.Tick 2) (Ok (replies.Ticked 0))) ∷ []) }
    ensures miscounted { CountsEach (2 ∷ 0 ∷ []) ((0, entry (steps.Tick 5) (Ok (replies.Ticked 0)))
        ∷ (1, entry (steps.Tick 2) (Ok (replies.Ticked 0))) ∷ []) → ⊥ }
{}
