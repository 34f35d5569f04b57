//! A worked run, told by the definitions.
ghost use Rattle.std.specs.Prelude.{◌≡◌, [], ◌∷◌, ◌++◌, map, Some, None};
ghost use Rattle.iec_apci.specs.declared.apdu.Signal.TheVariants.{StartCon};
ghost use Rattle.gw_station.specs.Example.{switched_on};
ghost use Rattle.gw_steps.specs.Example.{setup, started, fragment_of, event, connect};
ghost use Rattle.gw_steps.specs.Said.{UFormat};
ghost use Rattle.law_history.specs.Confirmations.{asked_confirmation};
ghost use Rattle.law_history.specs.Log.{log_of};
ghost use Rattle.law_history.specs.Life.{life, session, bringing, nothing_new, PutsOut};
ghost use Rattle.law_history.specs.Example.{made};

/// A client starts, and news come.
#[tactic(auto, unfolding(iec_apci::specs::Stream::reading, iec_apci::specs::Stream::answer_at_front, iec_apci::specs::Stream::content_of))]
pub fn lives_by_example()
    ensures log { log_of setup (made (started ++ fragment_of event ∷ [])) ≡ switched_on ∷ [] }
    // Its session holds the confirmation, the connection of the outstation, which brought nothing, and the news.
    ensures session { session (life setup 0 (made (started ++ fragment_of event ∷ [])))
        ≡ Some (bringing (switched_on ∷ []) [] ∷ nothing_new ∷ PutsOut (UFormat StartCon) ∷ []) }
    // Another client has none, and a life begins anew where its client comes up.
    ensures other { session (life setup 1 (made (started ++ fragment_of event ∷ []))) ≡ None }
    ensures anew { life setup 0 (made (connect ∷ [])) ≡ [] }
{}

/// Which confirmations the first octets of fragments ask for.
pub fn confirmations_by_example()
    // One that is the last, with and without UNS; the first of several, and one between, which have no FIN.
    ensures asked { map (λ octet. asked_confirmation (octet ∷ 0x81 ∷ 0x00 ∷ 0x00 ∷ []))
        (0xE3 ∷ 0xF3 ∷ 0xA3 ∷ 0x2F ∷ []) ≡ Some (0xC3 ∷ 0x00 ∷ []) ∷ Some (0xD3 ∷ 0x00 ∷ [])
        ∷ Some (0xC3 ∷ 0x00 ∷ []) ∷ Some (0xCF ∷ 0x00 ∷ []) ∷ [] }
    // All but CON.
    ensures not_asked { asked_confirmation (0xDF ∷ 0x81 ∷ 0x00 ∷ 0x00 ∷ []) ≡ None }
{}
