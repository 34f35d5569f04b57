//! What is handed over for one order, by an example.
ghost use Rattle.std.specs.Prelude.{◌≡◌, [], ◌∷◌, Some, true, false};
ghost use Rattle.dnp_app.specs.declared.operation.Operation.TheVariants.{DirectOperate, Operate, Select};
ghost use Rattle.dnp_app.specs.declared.request.Request.{Request};
ghost use Rattle.law_orders.specs.Bonds.{operation_in};
ghost use Rattle.law_running.specs.Handed.{AreOnce};

/// SELECT and then OPERATE, where a control is selected first; not OPERATE alone, and not twice.
pub fn select_before_operate()
    ensures both { (r s : Request) → operation_in r ≡ Some Select → operation_in s ≡ Some Operate
        → AreOnce true (r ∷ s ∷ []) }
    ensures alone { (s : Request) → operation_in s ≡ Some Operate → AreOnce true (s ∷ []) → ⊥ }
    ensures twice { (r s : Request) → AreOnce true (r ∷ s ∷ s ∷ []) → ⊥ }
    ensures direct { (r : Request) → operation_in r ≡ Some DirectOperate → AreOnce false (r ∷ []) }
    ensures again { (r : Request) → AreOnce false (r ∷ r ∷ []) → ⊥ }
{}
