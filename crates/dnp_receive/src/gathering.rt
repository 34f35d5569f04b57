//! What the frames of a stream brought.
ghost use Rattle.std.specs.Prelude.{◌≡◌, ℕ, List, [], ◌∷◌, ◌++◌, option_to_list, OnOk};
ghost use Rattle.dnp_link.specs.Frame.{FrameContent};
ghost use Rattle.dnp_link.specs.FrameContent.{content};
ghost use Rattle.dnp_link.specs.Stream.{reading};
ghost use Rattle.dnp_receive.specs.Delivery.{frames_of};

use crate::receiver::{Received, Receiver};
use dnp_link::{Frame, LinkEvent, LinkFeed};
use gw_model::Memory;
use std::alloc::Global;

/// A receiver, and all that it gave.
#[derive(Drop)]
pub struct Gathering {
    receiver: Receiver,
    pub replies: Vec<[u8; 10]>,
    pub fragments: Vec<Vec<u8>>,
}

impl Gathering {
    ghost use Rattle.dnp_receive.specs.Gathering.{HasGathered};

    /// Nothing came yet.
    pub fn new(alloc: Global, own: u16, peer: u16) -> Gathering
        ensures { HasGathered own peer [] result }
    {
        Gathering {
            receiver: Receiver::new(alloc, own, peer),
            replies: Vec::new(alloc),
            fragments: Vec::new(alloc),
        }
    }

    /// Takes the events that a feed shows.
    pub fn drain(&mut self, feed: &mut LinkFeed) -> Result<(), Memory>
        ensures gathered { (own peer : ℕ) (before : List FrameContent) → HasGathered own peer before self.old
            → OnOk result (HasGathered own peer (before ++ frames_of (reading feed.old).events) self.new) }
        ensures rest { OnOk result (feed.new ≡ (reading feed.old).rest) }
    {
        while let Some(event) = &feed.next() {
            if let LinkEvent::Frame(frame) = event {
                self.take(frame)?;
            }
        }
        Ok(())
    }

    /// Takes a frame, and keeps what it brings.
    fn take(&mut self, frame: &Frame) -> Result<(), Memory>
        ensures { (own peer : ℕ) (before : List FrameContent) → HasGathered own peer before self.old
            → OnOk result (HasGathered own peer (before ++ content frame.now ∷ []) self.new) }
    {
        let Received { reply, fragment } = self.receiver.take(frame)?;
        add(&mut self.replies, reply)?;
        add(&mut self.fragments, fragment)
    }
}

/// Adds an item, if there is one.
fn add<T: Drop>(list: &mut Vec<T>, item: Option<T>) -> Result<(), Memory>
    ensures { OnOk result (list.new.items ≡ list.old.items ++ option_to_list item) }
{
    if let Some(item) = item {
        list.push(item)?;
    }
    Ok(())
}
