//! A worked log.
ghost use Rattle.std.specs.Prelude.{◌≡◌, [], ◌∷◌};
ghost use Rattle.run_log.specs.Example.{early, late};
ghost use Rattle.run_log.specs.Follows.{of_lane, Follows};

/// What each lane added; and who of them may have known just the first two entries, and added nothing since.
#[tactic(auto, using(crate::proofs::Worked::follows_other, crate::proofs::Worked::not_own))]
pub fn two_lanes()
    ensures first { of_lane 0 late ≡ 30 ∷ 10 ∷ [] }
    ensures second { of_lane 1 late ≡ 20 ∷ [] }
    ensures follows { Follows 1 early late }
    ensures added { Follows 0 early late → ⊥ }
{}
