//! Worked runs: which orders are pending, and what is due when one is over.
ghost use Rattle.std.specs.Prelude.{◌≡◌, ◌++◌, [], ◌∷◌, map, true, false};
ghost use Rattle.gw_control.specs.Example.{setup};
ghost use Rattle.gw_steps.specs.Example.{outstation_down, poll};
ghost use Rattle.law_orders.specs.BondExample.{made, operated, selected, sends, set};
ghost use Rattle.law_orders.specs.OutcomeExample.{joining, leaves, newly_due, sends_by, stops};
ghost use Rattle.law_orders.specs.OutcomeExample.{switched, switching_first, three_orders, ticks};
ghost use Rattle.law_orders.specs.Pending.{pending};

/// What becomes of the first order.
#[tactic(auto, unfolding(iec_command::specs::Commands::command_of, dnp_objects::specs::Headers::headers_from, dnp_objects::specs::Library::object_of))]
pub fn outcomes_by_example()
    // It is pending from its execute on, also once it was selected, until OPERATE is answered.
    ensures comes { map (λ x. x.number) (pending setup 0 (made (sends 0 set ∷ []))) ≡ 1 ∷ [] }
    ensures goes_on { map (λ x. x.number) (pending setup 0 (made (selected 0 (poll ∷ [])))) ≡ 1 ∷ [] }
    ensures over { pending setup 0 (made (selected 0 (poll ∷ operated ∷ []))) ≡ [] }
    ensures done { map (λ x. x.done) (newly_due (made (selected 0 (poll ∷ operated ∷ [])))) ≡ true ∷ [] }
    // A SELECT that the outstation refused.
    ensures refused { map (λ x. x.done) (newly_due (made (selected 4 []))) ≡ false ∷ [] }
    // Its session ends before anything is asked: the order goes, and nothing is asked or told.
    ensures goes { pending setup 0 (made (sends 0 set ∷ stops ∷ [])) ≡ [] }
    // Its session ends after SELECT: OPERATE follows, and nobody is told.
    ensures left { map (λ x. x.left) (pending setup 0 (made (selected 0 (stops ∷ poll ∷ [])))) ≡ true ∷ [] }
    ensures untold { newly_due (made (selected 0 (stops ∷ poll ∷ operated ∷ []))) ≡ [] }
    ensures down { pending setup 0 (made (sends 0 set ∷ leaves ∷ [])) ≡ [] }
    // The answer is late 5 seconds behind its request, and not before. An order that waits isn't late.
    ensures in_time { newly_due (made (sends 0 set ∷ poll ∷ ticks 4999 ∷ [])) ≡ [] }
    ensures late { map (λ x. x.done) (newly_due (made (sends 0 set ∷ poll ∷ ticks 5000 ∷ []))) ≡ false ∷ [] }
    ensures waits { map (λ x. x.number) (pending setup 0 (made (sends 0 set ∷ ticks 5000 ∷ []))) ≡ 1 ∷ [] }
    ensures others_wait { map (λ x. x.number) (pending setup 0 (made (three_orders ++ ticks 5000 ∷ []))) ≡ 2 ∷ 3 ∷ [] }
    // The outstation is lost after SELECT succeeded: the order isn't done.
    ensures selected_only { map (λ x. x.done) (newly_due (made (selected 0 (outstation_down ∷ [])))) ≡ false ∷ [] }
    // An order is done by one DIRECT_OPERATE, and the next one waits on.
    ensures direct { map (λ x. x.done) (newly_due (made (switching_first ++ switched ∷ []))) ≡ true ∷ [] }
    ensures next { map (λ x. x.number) (pending setup 0 (made (switching_first ++ switched ∷ []))) ≡ 2 ∷ [] }
    // The outstation is lost: the orders of both clients fail, each told its own, the oldest first.
    ensures lost { map (λ x. x.done) (newly_due (made (sends 0 set ∷ outstation_down ∷ []))) ≡ false ∷ [] }
    ensures all_lost { map (λ x. x.client) (newly_due (made (three_orders ++ outstation_down ∷ []))) ≡ 0 ∷ 1 ∷ 1 ∷ [] }
    // One client leaves: only its orders go.
    ensures one_leaves { map (λ x. x.client) (pending setup 0 (made (joining ++ sends 0 set ∷ sends_by 1 0 set 0
        ∷ leaves ∷ []))) ≡ 1 ∷ [] }
{}
