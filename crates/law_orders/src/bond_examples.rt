//! Worked runs: what was asked for an order, what was answered, and what its client was told.
ghost use Rattle.std.specs.Prelude.{◌≡◌, [], ◌∷◌, Some, length, map, true, false};
ghost use Rattle.dnp_app.specs.declared.request.Request.{Request};
ghost use Rattle.dnp_app.specs.declared.operation.Operation.TheVariants.{Select, Operate, DirectOperate};
ghost use Rattle.gw_steps.specs.Example.{outstation_down, outstation_up, poll};
ghost use Rattle.gw_control.specs.Example.{setup};
ghost use Rattle.law_orders.specs.Bonds.{operation_in, IsBonded};
ghost use Rattle.law_orders.specs.Executes.{executes};
ghost use Rattle.law_orders.specs.Marks.{marks, Asked, Answered};
ghost use Rattle.law_orders.specs.ToldOnce.{told};
ghost use Rattle.law_orders.specs.BondExample.{made, operated, selected, set, setting, sends, switched, switching};

/// What becomes of the first order.
#[tactic(auto, unfolding(iec_command::specs::Commands::command_of, dnp_objects::specs::Headers::headers_from, dnp_objects::specs::Library::object_of))]
pub fn bonds_by_example()
    // A switch that was selected and then executed, which is one execute: one DIRECT_OPERATE, which is answered with
    // status 4 (control operation not supported). A poll after that asks for it no more.
    ensures switched { marks 1 (made switched) ≡ Answered false ∷ Asked 0 (switching DirectOperate 1) ∷ [] }
    ensures executed { length (executes setup (made switched)) ≡ 1 }
    ensures failed { map (λ x. x.done) (told setup (made switched)) ≡ false ∷ [] }
    ensures no_other { marks 2 (made switched) ≡ [] }
    // OPERATE for an order that nothing was asked for before isn't bound to it.
    ensures unselected { (r : Request) → operation_in r ≡ Some Operate → IsBonded true (Asked 0 r ∷ []) → ⊥ }
    // A set point by SELECT and OPERATE.
    ensures waits { marks 1 (made (sends 0 set ∷ [])) ≡ [] }
    ensures set { marks 1 (made (selected 0 (poll ∷ operated ∷ poll ∷ []))) ≡ Answered true
        ∷ Asked 0 (setting Operate 2) ∷ Answered true ∷ Asked 0 (setting Select 1) ∷ [] }
    ensures done { map (λ x. x.done) (told setup (made (selected 0 (poll ∷ operated ∷ poll ∷ [])))) ≡ true ∷ [] }
    ensures not_yet { told setup (made (selected 0 (poll ∷ []))) ≡ [] }
    // SELECT with status 4: no OPERATE.
    ensures refused { marks 1 (made (selected 4 (poll ∷ []))) ≡ Answered false ∷ Asked 0 (setting Select 1) ∷ [] }
    ensures refused_once { map (λ x. x.done) (told setup (made (selected 4 (poll ∷ [])))) ≡ false ∷ [] }
    // The outstation is lost after SELECT succeeded: what was asked stays so, OPERATE isn't given, the order failed.
    ensures lost { marks 1 (made (selected 0 (outstation_down ∷ outstation_up ∷ poll ∷ []))) ≡ Answered true
        ∷ Asked 0 (setting Select 1) ∷ [] }
    ensures lost_once { map (λ x. x.done) (told setup (made (selected 0 (outstation_down ∷ outstation_up ∷ []))))
        ≡ false ∷ [] }
{}
