//! The secondary station of the link: what it answers to the frames of the primary station.
ghost use Rattle.std.specs.Prelude.{◌≡◌, [], None};
ghost use Rattle.dnp_link.specs.Frame.{frame, frame_content};
ghost use Rattle.dnp_link.specs.FrameContent.{content};
ghost use Rattle.dnp_link.specs.Secondary.{answer_of, is_status, station_after};

use crate::frame::Frame;
use crate::writing::header_block;
use std::marker::Model;

// The CONTROL octets of the replies: DIR 1, since a master sends them, PRM 0, and the function code.
const ACK: u8 = 0x80;

const NACK: u8 = 0x81;

const LINK_STATUS: u8 = 0x8B;

const NOT_SUPPORTED: u8 = 0x8F;

/// The secondary station of one link (IEEE Std 1815-2012, clause 9), at the master's end: frames come to it
/// from an outstation as the primary station. A contract sees both addresses, and the frame count bit (FCB)
/// that is expected next, if the link was reset.
#[derive(Clone, Copy)]
pub struct Secondary {
    own: u16,
    peer: u16,
    expected: Option<bool>,
}

impl Model for Secondary {
    ghost use Rattle.dnp_link.specs.Station.{Station};

    ghost Value = { Station };

    ghost view = { λ s. record { own = s.own; peer = s.peer; expected = s.expected } };

    ghost inverse = { λ s. record { own = s.own; peer = s.peer; expected = s.expected } };
}

/// What to do with a frame.
#[derive(Clone, Copy)]
pub enum Answer {
    /// Hand its user data on.
    Deliver,
    /// Send this frame.
    Reply([u8; 10]),
    /// Send this frame, and hand the user data on.
    Both([u8; 10]),
    /// Nothing.
    Ignore,
}

impl Secondary {
    /// The station at an address, which was not reset yet. It answers to the primary station at `peer`.
    pub fn new(own: u16, peer: u16) -> Secondary
        ensures { result ≡ record { own = own; peer = peer; expected = None } }
    {
        Secondary {
            own,
            peer,
            expected: None,
        }
    }

    /// Whether a frame tells the status of the link, which is asked for by REQUEST_LINK_STATUS: LINK_STATUS (11) from the peer to
    /// this address, with DIR 0 and PRM 0.
    pub fn is_status(&self, frame: &Frame) -> bool
        ensures { result ≡ is_status self.now (content frame.now) }
    {
        frame.destination == self.own
            && frame.source == self.peer
            && frame.control / 64 == 0
            && frame.control % 16 == 11
    }

    /// What to do with a frame. One to another address, from another address, with DIR 1 or with PRM 0 is
    /// ignored; FCV isn't looked at. By the function code:
    ///
    /// - 4, UNCONFIRMED_USER_DATA: delivered.
    /// - 9, REQUEST_LINK_STATUS: LINK_STATUS.
    /// - 0, RESET_LINK_STATES: ACK, and FCB 1 is expected next.
    /// - 2, TEST_LINK_STATES, and 3, CONFIRMED_USER_DATA: NACK before a reset. With the expected FCB, ACK, the
    ///   data of 3 is delivered, and the other FCB is expected next. With the other FCB, ACK alone: the frame
    ///   was there before.
    /// - Any other: NOT_SUPPORTED.
    pub fn take(&mut self, frame: &Frame) -> Answer
        ensures answer { result ≡ answer_of self.old (content frame.now) }
        ensures after { self.new ≡ station_after self.old (content frame.now) }
    {
        let is_for = frame.destination == self.own
            && frame.source == self.peer
            && frame.control / 64 == 1;
        if !is_for {
            return Answer::Ignore;
        }
        let (own, peer) = (self.own, self.peer);
        match frame.control % 16 {
            // UNCONFIRMED_USER_DATA
            4 => Answer::Deliver,
            // REQUEST_LINK_STATUS
            9 => Answer::Reply(reply(own, peer, LINK_STATUS)),
            // RESET_LINK_STATES
            0 => {
                self.expected = Some(true);
                Answer::Reply(reply(own, peer, ACK))
            }
            // TEST_LINK_STATES, CONFIRMED_USER_DATA
            function @ (2 | 3) => {
                let Some(expected) = self.expected else {
                    return Answer::Reply(reply(own, peer, NACK));
                };
                let bit = frame.control / 32 % 2 == 1;
                if bit != expected {
                    return Answer::Reply(reply(own, peer, ACK));
                }
                self.expected = Some(!expected);
                match function {
                    3 => Answer::Both(reply(own, peer, ACK)),
                    _ => Answer::Reply(reply(own, peer, ACK)),
                }
            }
            _ => Answer::Reply(reply(own, peer, NOT_SUPPORTED)),
        }
    }
}

/// A frame without user data, to the peer.
#[tactic(auto, unfolding(crate::specs::Frame::frame))]
fn reply(own: u16, peer: u16, control: u8) -> [u8; 10]
    ensures { result ≡ frame (frame_content control peer own []) }
{
    header_block(control, peer, own, &[])
}
