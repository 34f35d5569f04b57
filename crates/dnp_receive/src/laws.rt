//! What holds of every list of frames. The function does nothing: its contract is the laws.
ghost use Rattle.std.specs.Prelude.{◌≡◌, ℕ, List, []};
ghost use Rattle.dnp_link.specs.Frame.{FrameContent};
ghost use Rattle.dnp_transport.specs.Fragment.{fragments_of};
ghost use Rattle.dnp_receive.specs.Delivery.{station_at, replies_by, delivered_user_data};
ghost use Rattle.dnp_receive.specs.Completion.{replies_owed, fragments_completed};

/// What frames bring one after another is what they bring as a whole.
pub fn frame_by_frame()
    ensures replies { (own peer : ℕ) (frames : List FrameContent)
        → replies_owed own peer [] frames ≡ replies_by (station_at own peer) frames }
    ensures fragments { (own peer : ℕ) (frames : List FrameContent)
        → fragments_completed own peer [] frames ≡ fragments_of (delivered_user_data (station_at own peer) frames) }
{}
