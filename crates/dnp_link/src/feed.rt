//! A stream of octets that comes in pieces.
ghost use Rattle.std.specs.Prelude.{◌≡◌, ◌<◌, [], ◌++◌, length, drop, IsOk, OnOk, OnErr, IfNone, IfSome};
ghost use Rattle.dnp_link.specs.Stream.{event_at_front, octets_used_if_any, reading, reading_with_front};
ghost use Rattle.dnp_link.specs.FrameContent.{event_content_if, HasPaddedFrame};

use crate::event::{LinkEvent, SkipReason};
use crate::reading::{Front, frame_at, frame_length_of, front_of};
use gw_model::{Memory, OctetQueue};
use std::alloc::Global;
use std::marker::Model;

/// Finds the frames in a stream of octets. A contract sees the octets that were fed and that no event
/// has used up yet.
#[derive(Drop)]
pub struct LinkFeed {
    octets: OctetQueue,
}

impl Model for LinkFeed {
    ghost use Rattle.std.specs.Prelude.{ℕ, List};

    ghost Value = { List ℕ };

    ghost view = { λ f. f.octets.left };
}

impl LinkFeed {
    /// A feed that was given nothing yet. It keeps the allocator.
    pub fn new(alloc: Global) -> LinkFeed
        ensures { result ≡ [] }
    {
        LinkFeed {
            octets: OctetQueue::new(alloc),
        }
    }

    /// Takes the next octets of the stream.
    pub fn feed(&mut self, piece: &[u8]) -> Result<(), Memory>
        ensures ok { OnOk result (self.new ≡ self.old ++ piece.now) }
        ensures err { OnErr result (self.new ≡ self.old) }

        // Nothing needs no memory.
        ensures nothing { piece.now ≡ [] → IsOk result }
    {
        self.octets.add(piece)
    }

    /// The next event, if the octets so far show one. It takes no memory.
    pub fn next(&mut self) -> Option<LinkEvent>
        ensures event { event_content_if result ≡ event_at_front self.old }
        ensures rest { self.new ≡ drop (octets_used_if_any (event_at_front self.old)) self.old }

        // What stands behind a frame's user data is 0.
        ensures padded { IfSome result HasPaddedFrame }

        // The reading of what was held back goes on by it.
        ensures reads { reading self.old ≡ reading_with_front (event_content_if result) self.new }
        ensures shorter { IfSome result (λ _. length self.new < length self.old) }

        // Less than the longest frame is held back where there is none.
        ensures held { IfNone result (length self.new < 292) }
    {
        match front_of(self.octets.rest()) {
            Front::Nothing => None,
            Front::Skip(why) => {
                self.octets.use_up(1);
                Some(LinkEvent::Skipped(why))
            }
            Front::Whole(len) => {
                let Some(frame) = frame_at(self.octets.rest(), len) else {
                    self.octets.use_up(1);
                    return Some(LinkEvent::Skipped(SkipReason::BadBlockCrc));
                };
                self.octets.use_up(frame_length_of(usize::from(len)));
                Some(LinkEvent::Frame(frame))
            }
        }
    }
}
