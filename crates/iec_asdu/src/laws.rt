//! What holds of every ASDU.
ghost use Rattle.std.specs.Prelude.{◌≡◌, ◌↔◌, ℕ, ◌<◌, ◌≤◌, Bool, List};
ghost use Rattle.std.specs.Prelude.{[], ◌∷◌, ◌++◌, length, take, Some, All};
ghost use Rattle.std.specs.Int.{w16, to_le_bytes};
ghost use Rattle.gw_model.specs.declared.observation.Observation.{Observation};
ghost use Rattle.iec_asdu.specs.Types.{Layout};
ghost use Rattle.gw_model.specs.Fit.{HasWidth, IsFit};
ghost use Rattle.gw_model.specs.Clocks.{Clocks};
ghost use Rattle.iec_asdu.specs.Asdu.{Asdu, asdu_meaning, monitor_types};
ghost use Rattle.iec_asdu.specs.Grammar.{IsAsdu};
ghost use Rattle.iec_asdu.specs.Spelling.{identification_at, qualifier_of, spelling};
ghost use Rattle.iec_asdu.specs.Packing.{is_in_sequence, taken_of, packed_spelling};
ghost use Rattle.iec_asdu.specs.Fitting.{FitsAsdu};

/// Octets mean an ASDU where they spell it, one text after another.
pub fn meanings_are_spelled()
    ensures { (types : List Layout) (octets : List ℕ) (asdu : Asdu) →
        asdu_meaning types octets ≡ Some asdu ↔ IsAsdu types octets asdu }
{}

/// What one ASDU carries of a list: the longest prefix that fits, under SQ 0 or SQ 1. Where it carries one observation
/// alone, it is spelled as that one.
pub fn longest_prefixes_are_taken()
    ensures fits { (clocks : Clocks) (x : Observation) (xs : List Observation) →
        FitsAsdu clocks (is_in_sequence clocks (x ∷ xs)) x (take (taken_of clocks (x ∷ xs)) (x ∷ xs)) }
    ensures longest { (clocks : Clocks) (x : Observation) (xs : List Observation) (sequence : Bool) (k : ℕ) →
        k ≤ length (x ∷ xs) → FitsAsdu clocks sequence x (take k (x ∷ xs)) → k ≤ taken_of clocks (x ∷ xs) }
    ensures some { (clocks : Clocks) (xs : List Observation) → 0 < length xs → 0 < taken_of clocks xs }
    ensures within { (clocks : Clocks) (xs : List Observation) → taken_of clocks xs ≤ length xs }
    ensures room { (clocks : Clocks) (cause : ℕ) (xs : List Observation) → length (packed_spelling clocks cause xs) ≤ 249 }
    ensures first { (clocks : Clocks) (cause : ℕ) (x : Observation) (xs : List Observation) →
        taken_of clocks (x ∷ xs) ≡ 1 → packed_spelling clocks cause (x ∷ xs) ≡ spelling clocks cause x }
    ensures one { (clocks : Clocks) (x : Observation) → taken_of clocks (x ∷ []) ≡ 1 }
{}

/// What the ASDU of a list begins with and means; and that no more than the first 127 of the list count for it.
pub fn packed_lists_mean_what_is_taken()
    ensures header { (clocks : Clocks) (cause : ℕ) (x : Observation) (xs : List Observation) →
        (rest : List ℕ) × (packed_spelling clocks cause (x ∷ xs)
        ≡ identification_at clocks x ∷ qualifier_of (is_in_sequence clocks (x ∷ xs)) (taken_of clocks (x ∷ xs))
        ∷ cause ∷ 0 ∷ (to_le_bytes w16 x.common ++ rest)) }
    ensures meant { (clocks : Clocks) (cause : ℕ) (x : Observation) (xs : List Observation) →
        let taken = take (taken_of clocks (x ∷ xs)) (x ∷ xs) in
        All (λ y. HasWidth y.value) taken → All (IsFit clocks) taken
        → asdu_meaning (monitor_types clocks) (packed_spelling clocks cause (x ∷ xs))
        ≡ Some (record {
          identification = identification_at clocks x;
          cause = cause;
          originator = 0;
          common_address = x.common;
          observations = taken;
        }) }
    ensures few { (clocks : Clocks) (xs : List Observation) → taken_of clocks xs ≤ 127 }
    ensures front { (clocks : Clocks) (xs : List Observation) → taken_of clocks (take 127 xs) ≡ taken_of clocks xs }
    ensures front_spelled { (clocks : Clocks) (cause : ℕ) (xs : List Observation) →
        packed_spelling clocks cause (take 127 xs) ≡ packed_spelling clocks cause xs }
{}
