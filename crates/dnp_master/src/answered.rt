//! How an outstation answers the requests of an order.
ghost use Rattle.std.specs.Prelude.{◌≡◌, Some};
ghost use Rattle.dnp_master.specs.Answers.{gives_back, taken_by, taken_with};

use dnp_app::{Echo, Operation};
use gw_model::Act;

/// How an outstation took a command, by the last fragment of its answer.
#[derive(Clone, Copy, PartialEq)]
pub enum Taken {
    /// It did it: it gave the command back with status 0 (IEEE Std 1815, 4.4 and Annex A).
    Done,
    /// It gave the command back with this control status, which isn't 0.
    Refused(u8),
    /// It gave something else back, or nothing.
    Otherwise,
}

/// An answer to a request of an order.
#[derive(Clone, Copy)]
pub struct CommandAnswer {
    /// What was asked for.
    pub operation: Operation,
    /// How it was taken.
    pub taken: Taken,
}

/// Whether an echo gives a command on an output back, whatever its status.
fn gives_back(index: u16, act: Act, echo: &Echo) -> bool
    ensures { result ≡ gives_back index act echo.now }
{
    let taken = Echo { status: 0, ..*echo };
    taken.is_taken(index, act)
}

/// How a command on an output was taken, by the echo in the answer.
pub fn taken_by(index: u16, act: Act, echo: Option<Echo>) -> Taken
    ensures { result ≡ taken_by index act echo }
{
    match echo {
        Some(echo) if gives_back(index, act, &echo) => taken_with(echo.status),
        _ => Taken::Otherwise,
    }
}

/// How it was taken, by its status.
fn taken_with(status: u8) -> Taken
    ensures { result ≡ taken_with status }
{
    if status == 0 {
        Taken::Done
    } else {
        Taken::Refused(status)
    }
}
