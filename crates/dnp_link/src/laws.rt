//! What holds of every stream and every frame, and a whole stream read through a feed.
ghost use Rattle.std.specs.Prelude.{◌≡◌, Bool, List, ℕ, [], ◌++◌, drop, map, Some, IfOk, OnOk, ◌↔◌};
ghost use Rattle.std.specs.List.{flat_map};
ghost use Rattle.gw_model.specs.Octets.{AreOctets};
ghost use Rattle.dnp_link.specs.Polynomial.{IsRemainder, remainder};
ghost use Rattle.dnp_link.specs.Frame.{FrameContent, frame};
ghost use Rattle.dnp_link.specs.Stream.{Framed, octets_used_if_any, event_at_front, reading};
ghost use Rattle.dnp_link.specs.Stream.{reading_with_front, reading_with_first, joined_readings};
ghost use Rattle.dnp_link.specs.Laws.{BeginsWith};
ghost use Rattle.dnp_link.specs.FrameContent.{event_content};

use crate::event::LinkEvent;
use crate::feed::LinkFeed;
use gw_model::Memory;
use std::alloc::Global;

/// Long division leaves the remainder of polynomial division by the generator, and there is no other.
pub fn division()
    ensures is { (m : List Bool) → IsRemainder m (remainder m) }
    ensures only { (m r : List Bool) → IsRemainder m r → r ≡ remainder m }
{}

/// A stream says first what its front shows, and then what the octets behind that say.
pub fn event_by_event()
    ensures { (octets : List ℕ)
        → reading octets
        ≡ reading_with_front (event_at_front octets) (drop (octets_used_if_any (event_at_front octets)) octets) }
{}

/// However a stream is cut, it says the same: what the first part says, and then what its rest says with the
/// second part.
pub fn cut_anywhere()
    ensures { (a b : List ℕ) → reading (a ++ b) ≡ joined_readings (reading a) (reading ((reading a).rest ++ b)) }
{}

/// A frame is read back as what it carries, whatever follows it.
pub fn written_is_read()
    ensures { (c : FrameContent) (behind : List ℕ)
        → reading (frame c ++ behind) ≡ reading_with_first (Framed c) (reading behind) }
{}

/// Octets show a frame exactly where they begin with the one that carries this.
pub fn read_was_written()
    ensures { (octets : List ℕ) (c : FrameContent) → AreOctets octets → (event_at_front octets ≡ Some (Framed c))
        ↔ BeginsWith octets c }
{}

/// The events of a stream that comes in these pieces, through a feed.
pub fn events_of(alloc: Global, pieces: &[&[u8]]) -> Result<Vec<LinkEvent>, Memory>
    ensures { IfOk result (λ events. map event_content events.items
        ≡ (reading (flat_map (λ piece. piece.now) pieces.now)).events) }
{
    let mut feed = LinkFeed::new(alloc);
    let mut events = Vec::new(alloc);
    for piece in pieces {
        feed.feed(piece)?;
        drain(&mut feed, &mut events)?;
    }
    Ok(events)
}

/// Adds the events that a feed shows.
fn drain(feed: &mut LinkFeed, events: &mut Vec<LinkEvent>) -> Result<(), Memory>
    ensures events { OnOk result (map event_content events.new.items
        ≡ map event_content events.old.items ++ (reading feed.old).events) }
    ensures rest { OnOk result (feed.new ≡ (reading feed.old).rest) }
{
    while let Some(event) = feed.next() {
        events.push(event)?;
    }
    Ok(())
}
