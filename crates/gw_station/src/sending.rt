//! What can be put out to a client.

use gw_answers::{AsduAnswer, OwnAsdu};
use gw_model::Observation;
use iec_apci::Signal;

/// What is put out to a client next.
#[derive(Clone, Copy)]
pub enum Sending {
    /// The confirmation of a U format that the client sent.
    Confirm(Signal),
    /// TESTFR act: t3 has passed.
    Test,
    /// The answer to an ASDU of the client, in I format.
    Answer(AsduAnswer),
    /// The oldest news, in I format.
    News(Observation),
    /// A part of the answer to an interrogation, in I format.
    Part(OwnAsdu),
    /// An S format: w I formats were received, or t2 has passed.
    SFormat,
}
