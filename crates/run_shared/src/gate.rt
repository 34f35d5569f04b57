//! Where workers can be held, and what they tell besides their steps.

use crate::observer::Observer;
use dnp_app::AppFault;
use gw_steps::{Effects, Pumps, Reply, Step, StepFault, StepKind};

/// A place on the way of a worker.
#[derive(Clone, Copy)]
pub enum Place {
    /// A reader has decoded a response or an APDU, and hasn't made its step.
    Decoded,
    /// A reader has made the step of a response or an APDU.
    Stepped,
    /// Octets are about to be handed to a peer; no lock is held.
    BeforeWrite,
}

/// What the header of a frame of the link says of its way (IEEE Std 1815-2012, clause 9.2.4).
#[derive(Clone, Copy)]
pub struct FrameHeader {
    /// The CONTROL octet.
    pub control: u8,
    /// The link address that the frame comes from.
    pub source: u16,
    /// The link address that it is for.
    pub destination: u16,
}

/// What is told of the workers' ways besides their steps, where no lock is held. A call that takes its time holds the worker.
/// All but `at` may be left out.
pub trait Gate: Observer {
    /// An actor has come to a place.
    fn at(&self, actor: usize, place: Place);

    /// A fragment of an outstation, with these octets, was refused, and no step was made.
    fn refused(&self, _outstation: u8, _octets: &[u8], _fault: &AppFault) {}

    /// The link dropped so many octets of an outstation, at which no frame begins.
    fn skipped(&self, _outstation: u8, _octets: u32) {}

    /// A frame of the link came on the connection of an outstation, whoever sent it, and whoever it is for.
    fn received(&self, _outstation: u8, _header: &FrameHeader) {}

    /// A fragment of an outstation was read that has so many objects of kinds that aren't taken.
    fn passed_over(&self, _outstation: u8, _objects: u64) {}

    /// An outstation doesn't answer the request for the status of its link, and isn't asked again.
    fn status_unanswered(&self, _outstation: u8) {}

    /// The host stood still: so many milliseconds have passed since the last tick.
    fn stood_still(&self, _milliseconds: u64) {}
}

/// A gate that holds nobody, and tells nobody.
#[derive(Clone, Copy)]
pub struct OpenGate;

impl Observer for OpenGate {
    type Kept = ();

    fn keep(&self, _step: &Step) {}

    fn step(
        &self,
        _kept: (),
        _number: u64,
        _kind: StepKind,
        _reply: &Result<Reply, StepFault>,
        _effects: &Effects,
    ) {}

    fn pumps(&self, _pumps: &Pumps<'_>) {}
}

impl Gate for OpenGate {
    fn at(&self, _actor: usize, _place: Place) {}
}
