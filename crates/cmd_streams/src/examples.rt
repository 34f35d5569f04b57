//! What some inputs come to by the definitions alone: whether each line is accepted, and what is written.

ghost use Rattle.std.specs.Prelude.{◌≡◌, ◌++◌, [], ◌∷◌, codes, true, false};
ghost use Rattle.gw_map.specs.Settings.{Setup};
ghost use Rattle.cmd_streams.specs.Answers.{all_accepted, text_of};

/// A response without objects is accepted and answered with nothing, and so is an empty line.
#[tactic(auto, unfolding(cmd_text::specs::Lines::lines_of, cmd_text::specs::Lines::onto_first, crate::specs::Answers::is_accepted, crate::specs::Answers::line_text, dnp_objects::specs::Headers::headers_from))]
pub fn inputs()
    ensures nothing { all_accepted [] ≡ true }
    ensures accepted { all_accepted (codes "C0 81 00 00" ++ 10 ∷ 10 ∷ codes "C0 82 00 00") ≡ true }
    ensures refused { all_accepted (codes "C0 81 00 00" ++ 10 ∷ codes "C0 8") ≡ false }
    ensures accepted_text { (setup : Setup) → text_of setup (codes "C0 81 00 00" ++ 10 ∷ []) ≡ [] }
    ensures refused_text { (setup : Setup) → text_of setup (codes "C0 8" ++ 10 ∷ 10 ∷ codes "C0 81 00")
        ≡ codes "refused 0 Hex" ++ 10 ∷ codes "refused 1 Short" ++ 10 ∷ [] }
{}
