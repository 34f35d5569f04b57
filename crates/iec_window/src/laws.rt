//! What holds of whole connections.
ghost use Rattle.std.specs.Prelude.{◌≡◌, ℕ, ◌<◌, ◌≤◌, ◌↔◌, IsTrue, List, ◌∷◌, length};
ghost use Rattle.iec_window.specs.declared.limits.Limits.{Limits};
ghost use Rattle.iec_window.specs.Sequence.{Acknowledges, is_right_receive};
ghost use Rattle.iec_window.specs.History.{Transmission, GotS, acknowledged_by, legal, counts_of, window_counts, waiting_at};

/// The numbers suffice: whatever is sent and comes, a window keeps from the numbers alone the counts that the whole
/// connection comes to, however often the numbers wrap. A frame that isn't legal counts for nothing.
pub fn counts_are_of_the_whole_connection()
    ensures counts { (limits : Limits) (start : ℕ) (frames : List Transmission) → limits.k < 32768
        → window_counts limits start frames ≡ counts_of limits start (legal limits frames) }
    // No more than k I formats wait.
    ensures window { (limits : Limits) (frames : List Transmission)
        → length (waiting_at (legal limits frames)) ≤ limits.k }
    // N(R) is right exactly where it names a count, no fewer than before and no more than were sent.
    ensures right { (limits : Limits) (start nr : ℕ) (frames : List Transmission) → limits.k < 32768
        → (IsTrue (is_right_receive nr (window_counts limits start frames))
        ↔ ((n : ℕ) × Acknowledges nr (counts_of limits start (legal limits frames)) n)) }
    // That count is acknowledged then, and N(R) names no other.
    ensures named { (limits : Limits) (start nr moment n : ℕ) (frames : List Transmission) → limits.k < 32768
        → Acknowledges nr (counts_of limits start (legal limits frames)) n
        → acknowledged_by (GotS nr moment ∷ legal limits frames) ≡ n }
{}
