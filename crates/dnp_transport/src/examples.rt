//! Worked examples of the definitions, computed by the definitions themselves. The functions do
//! nothing: their contracts are the examples.
ghost use Rattle.std.specs.Prelude.{◌≡◌, [], ◌∷◌, ◌++◌, replicate, None};
ghost use Rattle.dnp_transport.specs.declared.answer.DropCause.TheVariants.{Lone, Gap, TooLong, Empty};
ghost use Rattle.dnp_transport.specs.Fragment.{fragments_of};
ghost use Rattle.dnp_transport.specs.Series.{Fragment, More, Dropped};
ghost use Rattle.dnp_transport.specs.Runs.{answers_from};
ghost use Rattle.dnp_transport.specs.Cut.{segments_of};

/// FIR with number 62, then 63, then FIN with number 0: numbers go on modulo 64.
pub fn three_segments()
    ensures fragments { fragments_of ((0x7E ∷ 0xAA ∷ []) ∷ (0x3F ∷ 0xBB ∷ []) ∷ (0x80 ∷ 0xCC ∷ []) ∷ [])
        ≡ (0xAA ∷ 0xBB ∷ 0xCC ∷ []) ∷ [] }
    ensures answers { answers_from None ((0x7E ∷ 0xAA ∷ []) ∷ (0x3F ∷ 0xBB ∷ []) ∷ (0x80 ∷ 0xCC ∷ []) ∷ [])
        ≡ More ∷ More ∷ Fragment (0xAA ∷ 0xBB ∷ 0xCC ∷ []) ∷ [] }
{}

/// After FIR with number 1 comes number 3, and the fragment is lost. A header alone is left out, and
/// a segment with FIR and FIN is a fragment.
pub fn lost_segment()
    ensures fragments { fragments_of ((0x41 ∷ 0xAA ∷ []) ∷ (0x83 ∷ 0xBB ∷ []) ∷ (0x84 ∷ 0xCC ∷ []) ∷ (0xC6 ∷ [])
        ∷ (0xC5 ∷ 0xDD ∷ []) ∷ [])
        ≡ (0xDD ∷ []) ∷ [] }
    ensures answers { answers_from None ((0x41 ∷ 0xAA ∷ []) ∷ (0x83 ∷ 0xBB ∷ []) ∷ (0x84 ∷ 0xCC ∷ []) ∷ (0xC6 ∷ [])
        ∷ (0xC5 ∷ 0xDD ∷ []) ∷ [])
        ≡ More ∷ Dropped Gap ∷ Dropped Lone ∷ Dropped Empty ∷ Fragment (0xDD ∷ []) ∷ [] }
{}

/// A header alone takes no part: the fragment around it goes on.
pub fn header_alone()
    ensures fragments { fragments_of ((0x45 ∷ 1 ∷ []) ∷ (0x80 ∷ []) ∷ [] ∷ (0x86 ∷ 2 ∷ []) ∷ [])
        ≡ (1 ∷ 2 ∷ []) ∷ [] }
    ensures answers { answers_from None ((0x45 ∷ 1 ∷ []) ∷ (0x80 ∷ []) ∷ [] ∷ (0x86 ∷ 2 ∷ []) ∷ [])
        ≡ More ∷ Dropped Empty ∷ Dropped Empty ∷ Fragment (1 ∷ 2 ∷ []) ∷ [] }
{}

/// FIR begins anew, and a second FIN after a fragment ends none.
pub fn begun_anew()
    ensures fragments { fragments_of ((0x40 ∷ 1 ∷ []) ∷ (0x41 ∷ 2 ∷ []) ∷ (0x82 ∷ 3 ∷ []) ∷ (0x83 ∷ 4 ∷ []) ∷ [])
        ≡ (2 ∷ 3 ∷ []) ∷ [] }
    ensures answers { answers_from None ((0x40 ∷ 1 ∷ []) ∷ (0x41 ∷ 2 ∷ []) ∷ (0x82 ∷ 3 ∷ []) ∷ (0x83 ∷ 4 ∷ []) ∷ [])
        ≡ More ∷ More ∷ Fragment (2 ∷ 3 ∷ []) ∷ Dropped Lone ∷ [] }
{}

/// A fragment has at most 2,048 octets, in segments of any length.
pub fn longest_fragment()
    ensures longest { fragments_of ((0x40 ∷ replicate 2000 7) ∷ (0x81 ∷ replicate 48 7) ∷ []) ≡ replicate 2048 7 ∷ [] }
    ensures longer { fragments_of ((0x40 ∷ replicate 2000 7) ∷ (0x81 ∷ replicate 49 7) ∷ []) ≡ [] }
    ensures answers { answers_from None ((0x40 ∷ replicate 2000 7) ∷ (0x81 ∷ replicate 49 7) ∷ [])
        ≡ More ∷ Dropped TooLong ∷ [] }
    // A gap is told before a fragment that would be too long.
    ensures gap { answers_from None ((0x40 ∷ replicate 2000 7) ∷ (0x83 ∷ replicate 49 7) ∷ [])
        ≡ More ∷ Dropped Gap ∷ [] }
{}

/// 250 octets from number 63 on: FIR and 249 octets, then FIN with number 0 and one octet.
#[tactic(auto, unfolding(crate::specs::Cut::segments_from))]
pub fn two_segments()
    ensures two { segments_of (replicate 250 7) 63 ≡ (0x7F ∷ replicate 249 7) ∷ (0x80 ∷ 7 ∷ []) ∷ [] }
    ensures one { segments_of (replicate 249 7) 5 ≡ (0xC5 ∷ replicate 249 7) ∷ [] }
    ensures none { segments_of [] 5 ≡ [] }
{}
