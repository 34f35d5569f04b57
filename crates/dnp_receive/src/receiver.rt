//! The layers between the frames of one link and the fragments that they carry.
ghost use Rattle.std.specs.Prelude.{
  ◌≡◌,
  ◌≤◌,
  ◌&&◌,
  ℕ,
  List,
  [],
  ◌∷◌,
  ◌++◌,
  length,
  option_map,
  option_and_then,
  option_to_list,
  IsTrue,
  IfOk,
  OnOk,
  OnErr,
  IfSome,
};
ghost use Rattle.dnp_link.specs.Frame.{FrameContent};
ghost use Rattle.dnp_link.specs.FrameContent.{content};
ghost use Rattle.dnp_link.specs.Secondary.{is_status};
ghost use Rattle.dnp_transport.specs.Segment.{may_begin};
ghost use Rattle.dnp_transport.specs.Series.{step};
ghost use Rattle.dnp_transport.specs.Runs.{series_after, fragment_in};
ghost use Rattle.dnp_receive.specs.Answers.{is_delivery, handed_on, reply_in};
ghost use Rattle.dnp_receive.specs.Completion.{reply_owed, fragment_completed, may_begin_fragment};
ghost use Rattle.dnp_receive.specs.Receiver.{HasTaken};

use dnp_link::{Answer, Frame, Secondary};
use dnp_transport::{Assembler, Taken};
use gw_model::Memory;
use std::alloc::Global;
use std::marker::Model;

/// What receives the frames of one link: the secondary station, and the assembler of the segments that it
/// delivers.
#[derive(Drop)]
pub struct Receiver {
    secondary: Secondary,
    assembler: Assembler,
}

impl Model for Receiver {
    ghost use Rattle.dnp_receive.specs.Receiver.{Reception};

    ghost Value = { Reception };

    ghost view = { λ r. record { station = r.secondary; series = r.assembler } };
}

/// What a frame brings: the reply that the link owes, and the octets of the fragment that it completes.
#[derive(Drop)]
pub struct Received {
    pub reply: Option<[u8; 10]>,
    pub fragment: Option<Vec<u8>>,
}

impl Receiver {
    /// The receiver at an address, which no frame has come to. It answers to the primary station at `peer`.
    pub fn new(alloc: Global, own: u16, peer: u16) -> Receiver
        ensures { HasTaken own peer [] result }
    {
        Receiver {
            secondary: Secondary::new(own, peer),
            assembler: Assembler::new(alloc),
        }
    }

    /// Whether a frame tells the status of the link, which is asked for by REQUEST_LINK_STATUS.
    pub fn is_status(&self, frame: &Frame) -> bool
        ensures { result ≡ is_status self.now.station (content frame.now) }
    {
        self.secondary.is_status(frame)
    }

    /// Takes a frame of the link. What it brings is told by it and all frames before it; the link may owe a reply
    /// whether or not a fragment is complete.
    pub fn take(&mut self, frame: &Frame) -> Result<Received, Memory>
        ensures taken { (own peer : ℕ) (before : List FrameContent) → HasTaken own peer before self.old
            → OnOk result (HasTaken own peer (before ++ content frame.now ∷ []) self.new) }
        ensures reply { (own peer : ℕ) (before : List FrameContent) → HasTaken own peer before self.old
            → IfOk result (λ received. received.reply ≡ reply_owed own peer before (content frame.now)) }
        ensures fragment { (own peer : ℕ) (before : List FrameContent) → HasTaken own peer before self.old
            → IfOk result (λ received. option_map (λ f. f.items) received.fragment
            ≡ fragment_completed own peer before (content frame.now)) }

        // A fragment is short enough to be read as a response.
        ensures short { IfOk result (λ received. IfSome received.fragment (λ f. length f.items ≤ 2048)) }
        ensures err { OnErr result (self.new ≡ self.old) }

        // Memory is needed only where a fragment begins.
        ensures memory { OnErr result (IsTrue (may_begin_fragment self.old.station (content frame.now))) }
    {
        let mut secondary = self.secondary;
        let answer = secondary.take(frame);
        let reply = reply_in(&answer);
        let fragment = completed_by(&mut self.assembler, &answer, frame.user())?;
        self.secondary = secondary;
        Ok(Received { reply, fragment })
    }
}

/// The answer hands the user data of the frame on.
fn delivers(answer: &Answer) -> bool
    ensures { result ≡ is_delivery answer.now }
{
    matches!(answer, Answer::Deliver | Answer::Both(_))
}

/// The reply that the answer asks for.
fn reply_in(answer: &Answer) -> Option<[u8; 10]>
    ensures { result ≡ reply_in answer.now }
{
    match answer {
        Answer::Reply(reply) | Answer::Both(reply) => Some(*reply),
        Answer::Deliver | Answer::Ignore => None,
    }
}

/// Takes the user data of a frame, where the answer hands them on: the fragment that they complete, if any.
fn completed_by(
    assembler: &mut Assembler,
    answer: &Answer,
    user: &[u8],
) -> Result<Option<Vec<u8>>, Memory>
    ensures fragment { IfOk result (λ fragment. option_map (λ f. f.items) fragment
        ≡ option_and_then (λ segment. fragment_in (step assembler.old segment).0) (handed_on answer.now user.now)) }
    ensures series { OnOk result (assembler.new
        ≡ series_after assembler.old (option_to_list (handed_on answer.now user.now))) }
    ensures short { IfOk result (λ fragment. IfSome fragment (λ f. length f.items ≤ 2048)) }
    ensures err { OnErr result (assembler.new ≡ assembler.old) }
    ensures memory { OnErr result (IsTrue (is_delivery answer.now && may_begin user.now)) }
{
    if !delivers(answer) {
        return Ok(None);
    }
    match assembler.segment(user)? {
        Taken::Fragment(fragment) => Ok(Some(fragment)),
        Taken::More | Taken::Dropped(_) => Ok(None),
    }
}
