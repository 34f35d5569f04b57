//! Worked examples, computed with the definitions that the contracts cite.
#![tactic(auto, unfolding(dnp_link::specs::Stream::reading, dnp_link::specs::Stream::event_at_front, dnp_link::specs::Frame::is_sealed, dnp_link::specs::Frame::frame, dnp_link::specs::Frame::octets_with_crc, dnp_link::specs::Crc::crc_of, dnp_link::specs::Polynomial::remainder, dnp_link::specs::Polynomial::long_division))]

ghost use Rattle.std.specs.Prelude.{◌≡◌, [], ◌∷◌, ◌++◌, Some, None, take};
ghost use Rattle.dnp_receive.specs.Delivery.{stream_replies, stream_fragments};
ghost use Rattle.dnp_receive.specs.Completion.{reply_owed, fragment_completed};
ghost use Rattle.dnp_receive.specs.Examples.{
  first_frame,
  second_frame,
  last_frame,
  frame_of_station_2,
  confirmed_frame,
  whole_frame,
  confirmed_whole_frame,
  reset_frame,
  status_request,
  acknowledgement,
  refusal,
  link_status,
  sent,
  reset,
  asked_status,
  whole,
  confirmed_whole,
};

/// A fragment in three segments, each the user data of a frame of 14 octets from station 1 to station 1024:
/// the frames alone; behind the front of a frame that breaks off; and with a frame from station 2, and one of
/// CONFIRMED_USER_DATA before a reset, between them.
pub fn three_frames()
    ensures alone { stream_fragments 1024 1 (first_frame ++ second_frame ++ last_frame)
        ≡ (0xAA ∷ 0xBB ∷ 0xCC ∷ []) ∷ [] }
    ensures resynchronised { stream_fragments 1024 1 (take 6 first_frame ++ first_frame ++ second_frame ++ last_frame)
        ≡ (0xAA ∷ 0xBB ∷ 0xCC ∷ []) ∷ [] }
    ensures among_others { stream_fragments 1024 1
        (first_frame ++ frame_of_station_2 ++ confirmed_frame ++ second_frame ++ last_frame)
        ≡ (0xAA ∷ 0xBB ∷ 0xCC ∷ []) ∷ [] }
{}

/// A fragment in one segment, to station 1024 from station 1, as these and other stations see it.
pub fn one_frame()
    ensures seen { stream_fragments 1024 1 whole_frame ≡ (0xDD ∷ []) ∷ [] }
    ensures to_another { stream_fragments 1025 1 whole_frame ≡ [] }
    ensures from_another { stream_fragments 1024 2 whole_frame ≡ [] }
    ensures broken_off { stream_fragments 1024 1 (take 13 whole_frame) ≡ [] }
{}

/// The same fragment as CONFIRMED_USER_DATA: before a reset; after one, and once more after that, with the frame
/// count bit that is old by then. REQUEST_LINK_STATUS behind the frame without confirmation.
pub fn confirmed_frame()
    ensures refused { stream_replies 1024 1 confirmed_whole_frame ≡ refusal ∷ [] }
    ensures not_delivered { stream_fragments 1024 1 confirmed_whole_frame ≡ [] }
    ensures acknowledged { stream_replies 1024 1 (reset_frame ++ confirmed_whole_frame ++ confirmed_whole_frame)
        ≡ acknowledgement ∷ acknowledgement ∷ acknowledgement ∷ [] }
    ensures delivered_once { stream_fragments 1024 1 (reset_frame ++ confirmed_whole_frame ++ confirmed_whole_frame)
        ≡ (0xDD ∷ []) ∷ [] }
    ensures status { stream_replies 1024 1 (whole_frame ++ status_request) ≡ link_status ∷ [] }
{}

/// The same frame by frame: what the last one is owed, and what it completes.
pub fn last_of_frames()
    ensures acknowledged { reply_owed 1024 1 (reset ∷ []) confirmed_whole ≡ Some acknowledgement }
    ensures completes { fragment_completed 1024 1 (reset ∷ []) confirmed_whole ≡ Some (0xDD ∷ []) }
    ensures repeat_acknowledged { reply_owed 1024 1 (reset ∷ confirmed_whole ∷ []) confirmed_whole
        ≡ Some acknowledgement }
    ensures repeat_completes_nothing { fragment_completed 1024 1 (reset ∷ confirmed_whole ∷ []) confirmed_whole ≡ None }
    // No reply is owed for UNCONFIRMED_USER_DATA, and no reset is needed.
    ensures unconfirmed { reply_owed 1024 1 [] whole ≡ None }
    ensures unconfirmed_completes { fragment_completed 1024 1 [] whole ≡ Some (0xDD ∷ []) }
    // A frame to all stations is for none that masters have.
    ensures to_all { fragment_completed 1024 1 [] (record whole { destination = 65535 }) ≡ None }
    ensures to_all_unanswered { reply_owed 1024 1 [] (record asked_status { destination = 65533 }) ≡ None }
    // Another frame may come between the segments of a fragment.
    ensures status { reply_owed 1024 1 (sent 0x44 (0x7E ∷ 0xAA ∷ []) ∷ []) asked_status ≡ Some link_status }
    ensures goes_on { fragment_completed 1024 1 (sent 0x44 (0x7E ∷ 0xAA ∷ []) ∷ asked_status ∷ [])
        (sent 0x44 (0xBF ∷ 0xBB ∷ [])) ≡ Some (0xAA ∷ 0xBB ∷ []) }
{}
