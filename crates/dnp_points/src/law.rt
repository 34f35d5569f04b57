//! What holds of every object part.
ghost use Rattle.std.specs.Prelude.{◌≡◌, ◌↔◌, ℕ, List, Ok};
ghost use Rattle.gw_model.specs.declared.point.Report.{Report as Told};
ghost use Rattle.dnp_points.specs.Meaning.{Means, meaning_of};

/// An object part means the reports that reading it gives, and no others; where reading gives a fault, it means
/// nothing.
pub fn one_meaning()
    ensures { (outstation : ℕ) (part : List ℕ) (rs : List Told)
        → (meaning_of outstation part ≡ Ok rs) ↔ Means outstation part rs }
{}
