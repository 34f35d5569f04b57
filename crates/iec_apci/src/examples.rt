//! Worked examples, computed with the definitions that the contracts cite.
ghost use Rattle.std.specs.Prelude.{◌≡◌, [], ◌∷◌, Some, None, Ok, Err};
ghost use Rattle.iec_apci.specs.declared.apdu.Signal.TheVariants.{StartAct, StartCon, StopAct, StopCon, TestAct, TestCon};
ghost use Rattle.iec_apci.specs.declared.fault.ApciFault.TheVariants.{Start, Length, Control};
ghost use Rattle.iec_apci.specs.Apdu.{Information, Supervisory, Unnumbered, apdu};
ghost use Rattle.iec_apci.specs.Stream.{Open, Faulty, reading};
ghost use Rattle.iec_apci.specs.Calls.{Feed, Next, stream_answers};

/// The octets of some APDUs: the control functions, N(R) 1, N(S) 1 with a single-point, and the highest
/// numbers.
pub fn octets_of_apdus()
    ensures start_act { apdu (Unnumbered StartAct) ≡ 0x68 ∷ 0x04 ∷ 0x07 ∷ 0x00 ∷ 0x00 ∷ 0x00 ∷ [] }
    ensures start_con { apdu (Unnumbered StartCon) ≡ 0x68 ∷ 0x04 ∷ 0x0B ∷ 0x00 ∷ 0x00 ∷ 0x00 ∷ [] }
    ensures stop_act { apdu (Unnumbered StopAct) ≡ 0x68 ∷ 0x04 ∷ 0x13 ∷ 0x00 ∷ 0x00 ∷ 0x00 ∷ [] }
    ensures stop_con { apdu (Unnumbered StopCon) ≡ 0x68 ∷ 0x04 ∷ 0x23 ∷ 0x00 ∷ 0x00 ∷ 0x00 ∷ [] }
    ensures test_act { apdu (Unnumbered TestAct) ≡ 0x68 ∷ 0x04 ∷ 0x43 ∷ 0x00 ∷ 0x00 ∷ 0x00 ∷ [] }
    ensures test_con { apdu (Unnumbered TestCon) ≡ 0x68 ∷ 0x04 ∷ 0x83 ∷ 0x00 ∷ 0x00 ∷ 0x00 ∷ [] }
    ensures supervisory { apdu (Supervisory 1) ≡ 0x68 ∷ 0x04 ∷ 0x01 ∷ 0x00 ∷ 0x02 ∷ 0x00 ∷ [] }
    ensures information { apdu (Information 1 0
        (0x01 ∷ 0x01 ∷ 0x03 ∷ 0x00 ∷ 0x01 ∷ 0x00 ∷ 0x05 ∷ 0x10 ∷ 0x00 ∷ 0x00 ∷ []))
        ≡ 0x68 ∷ 0x0E ∷ 0x02 ∷ 0x00 ∷ 0x00 ∷ 0x00
        ∷ 0x01 ∷ 0x01 ∷ 0x03 ∷ 0x00 ∷ 0x01 ∷ 0x00 ∷ 0x05 ∷ 0x10 ∷ 0x00 ∷ 0x00 ∷ [] }
    ensures highest { apdu (Information 32767 256 []) ≡ 0x68 ∷ 0x04 ∷ 0xFE ∷ 0xFF ∷ 0x00 ∷ 0x02 ∷ [] }
{}

/// What some streams say.
#[tactic(auto, unfolding(crate::specs::Stream::reading, crate::specs::Stream::answer_at_front, crate::specs::Stream::content_of))]
pub fn streams()
    // TESTFR act, and then a length of 3.
    ensures fault { reading (0x68 ∷ 0x04 ∷ 0x43 ∷ 0x00 ∷ 0x00 ∷ 0x00 ∷ 0x68 ∷ 0x03 ∷ [])
        ≡ record { apdus = Unnumbered TestAct ∷ []; ending = Faulty Length } }
    // An S format and an I format, and the beginning of another.
    ensures apdus { reading (0x68 ∷ 0x04 ∷ 0x01 ∷ 0x00 ∷ 0x02 ∷ 0x00
        ∷ 0x68 ∷ 0x05 ∷ 0xFE ∷ 0xFF ∷ 0x00 ∷ 0x02 ∷ 0x64
        ∷ 0x68 ∷ 0x04 ∷ [])
        ≡ record { apdus = Supervisory 1 ∷ Information 32767 256 (0x64 ∷ []) ∷ []; ending = Open (0x68 ∷ 0x04 ∷ []) } }
    // Nothing follows a fault, whatever comes.
    ensures ends { reading (0x68 ∷ 0x03 ∷ 0x68 ∷ 0x04 ∷ 0x43 ∷ 0x00 ∷ 0x00 ∷ 0x00 ∷ [])
        ≡ record { apdus = []; ending = Faulty Length } }
    // The start octet is tried first, then the length, as soon as each is there.
    ensures start { reading (0x69 ∷ 0x03 ∷ []) ≡ record { apdus = []; ending = Faulty Start } }
    ensures start_alone { reading (0x00 ∷ []) ≡ record { apdus = []; ending = Faulty Start } }
    ensures too_long { reading (0x68 ∷ 0xFE ∷ []) ≡ record { apdus = []; ending = Faulty Length } }
    ensures longest_waits { reading (0x68 ∷ 0xFD ∷ []) ≡ record { apdus = []; ending = Open (0x68 ∷ 0xFD ∷ []) } }
    // The control field is looked at once the whole APDU is there.
    ensures control_waits { reading (0x68 ∷ 0x04 ∷ 0x00 ∷ 0x00 ∷ 0x01 ∷ [])
        ≡ record { apdus = []; ending = Open (0x68 ∷ 0x04 ∷ 0x00 ∷ 0x00 ∷ 0x01 ∷ []) } }
    ensures third_octet { reading (0x68 ∷ 0x04 ∷ 0x00 ∷ 0x00 ∷ 0x01 ∷ 0x00 ∷ [])
        ≡ record { apdus = []; ending = Faulty Control } }
    ensures long_supervisory { reading (0x68 ∷ 0x05 ∷ 0x01 ∷ 0x00 ∷ 0x02 ∷ 0x00 ∷ 0x00 ∷ [])
        ≡ record { apdus = []; ending = Faulty Control } }
    ensures second_octet { reading (0x68 ∷ 0x04 ∷ 0x01 ∷ 0x01 ∷ 0x02 ∷ 0x00 ∷ [])
        ≡ record { apdus = []; ending = Faulty Control } }
    ensures two_functions { reading (0x68 ∷ 0x04 ∷ 0x0F ∷ 0x00 ∷ 0x00 ∷ 0x00 ∷ [])
        ≡ record { apdus = []; ending = Faulty Control } }
    ensures numbered_function { reading (0x68 ∷ 0x04 ∷ 0x07 ∷ 0x00 ∷ 0x02 ∷ 0x00 ∷ [])
        ≡ record { apdus = []; ending = Faulty Control } }
{}

/// The answers of a feed that is given TESTFR act in two pieces and a length of 3, is asked again and again,
/// and is given another APDU.
#[tactic(auto, unfolding(crate::specs::Stream::reading, crate::specs::Stream::answer_at_front, crate::specs::Stream::content_of))]
pub fn calls()
    ensures { stream_answers [] 0 (Next ∷ Feed (0x68 ∷ 0x04 ∷ 0x43 ∷ []) ∷ Next
        ∷ Feed (0x00 ∷ 0x00 ∷ 0x00 ∷ 0x68 ∷ 0x03 ∷ []) ∷ Next ∷ Next ∷ Next
        ∷ Feed (0x68 ∷ 0x04 ∷ 0x43 ∷ 0x00 ∷ 0x00 ∷ 0x00 ∷ []) ∷ Next ∷ [])
        ≡ None ∷ None ∷ Some (Ok (Unnumbered TestAct)) ∷ Some (Err Length) ∷ Some (Err Length) ∷ Some (Err Length)
        ∷ [] }
{}
