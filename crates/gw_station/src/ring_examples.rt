//! Clients that stand in the same news, computed by the definitions.
ghost use Rattle.std.specs.Prelude.{◌≡◌, [], ◌∷◌, map};
ghost use Rattle.iec_window.specs.Examples.{usual};
ghost use Rattle.gw_station.specs.Example.{switched_off, switched_on};
ghost use Rattle.gw_station.specs.Ring.{seat_down, seen};
ghost use Rattle.gw_station.specs.RingExample.{seen_at, three};

/// Of three news the last two are kept.
pub fn cursors_by_example()
    // A client that was given none dropped the first; one that was given it dropped none; for one that was given two the
    // last waits, and one that was given all, or whose session begins behind them, sees none.
    ensures waits { map (λ n. (seen_at n 0).queue) (0 ∷ 1 ∷ 2 ∷ 3 ∷ []) ≡ (switched_off ∷ switched_on ∷ [])
        ∷ (switched_off ∷ switched_on ∷ []) ∷ (switched_on ∷ []) ∷ [] ∷ [] }
    ensures dropped { map (λ n. (seen_at n 0).dropped) (0 ∷ 1 ∷ 2 ∷ 3 ∷ []) ≡ 1 ∷ 0 ∷ 0 ∷ 0 ∷ [] }
    // An interrogation came before the first of them, behind each of them: a mark that is passed leaves nothing older.
    ensures older { map (λ mark. (seen_at 0 mark).older) (0 ∷ 1 ∷ 2 ∷ 3 ∷ []) ≡ 0 ∷ 0 ∷ 1 ∷ 2 ∷ [] }
    // Outside of a session nothing is seen.
    ensures down { (seen three (seat_down usual)).queue ≡ [] }
{}
