//! Worked examples, computed with the definitions that the contracts cite.
ghost use Rattle.std.specs.Prelude.{◌≡◌, true, false, [], ◌∷◌, ◌++◌, replicate, Some, None, codes};
ghost use Rattle.dnp_link.specs.Crc.{crc_of};
ghost use Rattle.dnp_link.specs.Stream.{Framed, Dropped, reading};
ghost use Rattle.dnp_link.specs.Examples.{first_nine, first_six, replies_to};
ghost use Rattle.dnp_link.specs.declared.event.SkipReason.TheVariants.{BadStart, BadLength, BadHeaderCrc};

/// The check value of the CRC.
#[tactic(auto, unfolding(crate::specs::Crc::crc_of, crate::specs::Polynomial::remainder, crate::specs::Polynomial::long_division))]
pub fn check_value()
    ensures { crc_of (codes "123456789") ≡ 0xEA82 }
{}

/// CONTROL C0 to address 1 from 1024; the same with its last octet missing, with that octet changed, and
/// behind its own first six octets; and a LENGTH below 5.
#[tactic(auto, unfolding(crate::specs::Stream::reading, crate::specs::Stream::event_at_front, crate::specs::Frame::is_sealed, crate::specs::Crc::crc_of, crate::specs::Polynomial::remainder, crate::specs::Polynomial::long_division))]
pub fn streams()
    ensures frame { reading (0x05 ∷ 0x64 ∷ 0x05 ∷ 0xC0 ∷ 0x01 ∷ 0x00 ∷ 0x00 ∷ 0x04 ∷ 0xE9 ∷ 0x21 ∷ []) ≡ record {
      events = Framed (record { control = 0xC0; destination = 1; source = 1024; user = [] }) ∷ [];
      rest = [];
    } }
    ensures waits { reading first_nine ≡ record {
      events = [];
      rest = first_nine;
    } }
    ensures wrong_crc { reading (first_nine ++ 0x20 ∷ []) ≡ record {
      events = Dropped BadHeaderCrc ∷ replicate 9 (Dropped BadStart);
      rest = [];
    } }
    ensures resynchronised { reading (first_six ++ first_nine ++ 0x21 ∷ []) ≡ record {
      events = Dropped BadHeaderCrc ∷ replicate 5 (Dropped BadStart)
          ++ Framed (record { control = 0xC0; destination = 1; source = 1024; user = [] }) ∷ [];
      rest = [];
    } }
    ensures short_length { reading (0x05 ∷ 0x64 ∷ 0x04 ∷ []) ≡ record {
      events = Dropped BadLength ∷ Dropped BadStart ∷ Dropped BadStart ∷ [];
      rest = [];
    } }
{}

/// What a secondary station that was not reset decides on these CONTROL octets, one after another: whether
/// user data is delivered, and the CONTROL octet of the reply.
pub fn decisions()
    ensures in_turn { replies_to None
        (0x72 ∷ 0x40 ∷ 0x72 ∷ 0x73 ∷ 0x53 ∷ 0x53 ∷ 0x44 ∷ 0x49 ∷ 0x41 ∷ 0xC4 ∷ 0x00 ∷ [])
        ≡ (false, Some 0x81) ∷ (false, Some 0x80) ∷ (false, Some 0x80) ∷ (false, Some 0x80) ∷ (true, Some 0x80)
        ∷ (false, Some 0x80)
        ∷ (true, None) ∷ (false, Some 0x8B) ∷ (false, Some 0x8F) ∷ (false, None) ∷ (false, None) ∷ [] }
    // REQUEST_LINK_STATUS needs no reset.
    ensures status { replies_to None (0x49 ∷ []) ≡ (false, Some 0x8B) ∷ [] }
    // TEST_LINK_STATES with the other frame count bit gets ACK as well.
    ensures test_again { replies_to None (0x40 ∷ 0x72 ∷ 0x72 ∷ []) ≡ replicate 3 (false, Some 0x80) }
    // Each reset makes 1 the bit that is expected.
    ensures reset_again { replies_to None (0x40 ∷ 0x73 ∷ 0x40 ∷ 0x73 ∷ [])
        ≡ (false, Some 0x80) ∷ (true, Some 0x80) ∷ (false, Some 0x80) ∷ (true, Some 0x80) ∷ [] }
    // The bit counts where FCV is 0, too.
    ensures not_valid { replies_to None (0x40 ∷ 0x63 ∷ 0x63 ∷ [])
        ≡ (false, Some 0x80) ∷ (true, Some 0x80) ∷ (false, Some 0x80) ∷ [] }
    // Every other function is not supported.
    ensures other_functions { replies_to None (0x41 ∷ 0x45 ∷ 0x46 ∷ 0x47 ∷ 0x48 ∷ 0x4A ∷ 0x4B ∷ 0x4C ∷ 0x4D ∷ 0x4E
        ∷ 0x4F ∷ []) ≡ replicate 11 (false, Some 0x8F) }
{}
