//! What holds of every list of segments. The functions do nothing: their contracts are the laws.
ghost use Rattle.std.specs.Prelude.{◌≡◌, ◌-◌, ◌<◌, ◌≤◌, ℕ, List, [], ◌∷◌};
ghost use Rattle.std.specs.Prelude.{◌++◌, length, replicate, Option, None, option_to_list};
ghost use Rattle.dnp_transport.specs.Fragment.{fragments_of};
ghost use Rattle.dnp_transport.specs.Series.{Series, Fragment, More, step};
ghost use Rattle.dnp_transport.specs.Cut.{segment_count, segments_of};
ghost use Rattle.dnp_transport.specs.Runs.{answers_from, series_after, fragment_in, fragments_in};

/// An assembler gives the fragments of the segments that came to it.
pub fn assembler_gives_fragments()
    ensures whole { (segments : List (List ℕ)) → fragments_in (answers_from None segments) ≡ fragments_of segments }
    // Call by call: the answer to a segment gives the fragment that ends with it.
    ensures each { (segments : List (List ℕ)) (segment : List ℕ) → fragments_of (segments ++ segment ∷ [])
        ≡ fragments_of segments ++ option_to_list (fragment_in (step (series_after None segments) segment).0) }
    ensures series { (segments : List (List ℕ)) (segment : List ℕ) → series_after None (segments ++ segment ∷ [])
        ≡ (step (series_after None segments) segment).1 }
{}

/// The segments of a fragment that isn't empty are taken as that fragment, whatever came before them
/// and whatever comes after them.
pub fn segments_are_taken()
    // Each segment but the last gives More, the last the fragment, and what follows is a new run.
    ensures answers { (series : Option Series) (fragment : List ℕ) (first : ℕ) (more : List (List ℕ)) →
        0 < length fragment → length fragment ≤ 2048 →
        answers_from series (segments_of fragment first ++ more)
        ≡ replicate (segment_count (length fragment) - 1) More ++ Fragment fragment ∷ answers_from None more }
    ensures fragments { (before more : List (List ℕ)) (fragment : List ℕ) (first : ℕ) →
        0 < length fragment → length fragment ≤ 2048 →
        fragments_of (before ++ segments_of fragment first ++ more)
        ≡ fragments_of before ++ fragment ∷ fragments_of more }
    ensures none { (first : ℕ) → segments_of [] first ≡ [] }
{}
