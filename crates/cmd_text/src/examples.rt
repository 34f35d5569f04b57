//! What the lines of some inputs are by the definitions alone.

ghost use Rattle.std.specs.Prelude.{◌≡◌, ◌++◌, [], ◌∷◌, codes};
ghost use Rattle.cmd_text.specs.Lines.{lines_of};

/// A line feed ends a line, so that after it another one begins.
#[tactic(auto, unfolding(crate::specs::Lines::lines_of, crate::specs::Lines::onto_first))]
pub fn lines()
    ensures nothing { lines_of [] ≡ [] ∷ [] }
    ensures without_end { lines_of (codes "C0") ≡ codes "C0" ∷ [] }
    ensures with_end { lines_of (codes "C0" ++ 10 ∷ []) ≡ codes "C0" ∷ [] ∷ [] }
    ensures empty_one { lines_of (codes "C0" ++ 10 ∷ 10 ∷ codes "8") ≡ codes "C0" ∷ [] ∷ codes "8" ∷ [] }
{}
