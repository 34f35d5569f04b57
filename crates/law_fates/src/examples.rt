//! Worked runs: three orders, each with a fate of its own, and sessions that end while an order is under way.
ghost use Rattle.std.specs.Prelude.{◌≡◌, [], ◌∷◌, ◌++◌, map, false, true};
ghost use Rattle.dnp_app.specs.declared.operation.Operation.TheVariants.{Select};
ghost use Rattle.gw_control.specs.Example.{setup};
ghost use Rattle.gw_steps.specs.Example.{poll};
ghost use Rattle.dnp_master.specs.declared.fate.Fate.TheVariants as fated;
ghost use Rattle.gw_steps.specs.Runs.{state_after};
ghost use Rattle.law_fates.specs.Fates.{all_accepted, all_ended, on_their_way};
ghost use Rattle.law_fates.specs.Example.{closed, done, due, fates, left, let_go, made, of_another, refused, sets, told};

/// One is done, one is refused, and one is let go.
#[tactic(auto, unfolding(iec_command::specs::Commands::command_of, dnp_objects::specs::Headers::headers_from, dnp_objects::specs::Library::object_of))]
pub fn fates_by_example()
    ensures waits { map (λ x. x.number) (on_their_way (state_after setup (made (sets 0 ∷ [])))) ≡ 1 ∷ [] }
    ensures done { fates (made done) ≡ (1, fated.Done) ∷ [] }
    ensures under_way { map (λ x. x.number) (on_their_way (state_after setup (made (done ++ sets 1 ∷ poll ∷ [])))) ≡ 2 ∷ [] }
    ensures refused { fates (made refused) ≡ (2, fated.Refused Select 4) ∷ (1, fated.Done) ∷ [] }
    ensures let_go { fates (made let_go) ≡ (3, fated.LetGo) ∷ (2, fated.Refused Select 4) ∷ (1, fated.Done) ∷ [] }
    ensures told { told (made let_go) ≡ (0, false) ∷ (0, true) ∷ [] }
    // It goes on where its session ends while it is under way, and nobody is told of it.
    ensures left { fates (made left) ≡ (1, fated.Done) ∷ [] }
    ensures untold { told (made left) ≡ [] }
    ensures not_due { due (made left) ≡ [] }
    // One tick closes the connection and finds the answer late: nobody is told of that either.
    ensures closed { fates (made closed) ≡ (2, fated.Unanswered Select) ∷ (1, fated.Done) ∷ [] }
    ensures closed_untold { told (made closed) ≡ (0, true) ∷ [] }
    ensures accepted { map (λ x. x.number) (all_accepted setup (made let_go)) ≡ 3 ∷ 2 ∷ 1 ∷ [] }
    ensures ended { map (λ x. x.number) (all_ended setup (made let_go)) ≡ 3 ∷ 2 ∷ 1 ∷ [] }
    ensures of_another { map (λ x. x.client) (all_ended setup (made of_another)) ≡ 1 ∷ [] }
    ensures none_left { on_their_way (state_after setup (made let_go)) ≡ [] }
{}
