//! What becomes of an APDU.

ghost use Rattle.std.specs.Prelude.{◌≡◌, ◌+◌, ◌<◌, ◌^◌};
ghost use Rattle.gw_station.specs.Answers.{held_with};

use iec_apci::Why;
use iec_command::Command;

/// How many places an order holds until its outcome: for its confirmation and its termination.
const ORDER_PLACES: usize = 2;

/// What became of an APDU from a client.
#[derive(Clone, Copy)]
pub enum Event {
    /// It was taken.
    Taken,
    /// It was taken, and carries a command for a control, which is to be answered.
    Command(Command),
    /// The client's connection is closed.
    Closed(Why),
}

/// What is said of a command for a control, or of the order that it became.
#[derive(Clone, Copy)]
pub enum Said {
    /// Its activation or deactivation is confirmed.
    Confirm,
    /// It is confirmed negatively.
    Negative,
    /// It is an order: what is said of it is what becomes of the order.
    Ordered,
    /// The order was done.
    Done,
    /// The order failed.
    Failed,
}

impl Said {
    /// How many places are held by orders, where so many were.
    pub fn held_with(self, held: usize) -> usize
        requires { held + 2 < 2 ^ 64 }
        ensures { result ≡ held_with self held }
    {
        match self {
            Said::Confirm | Said::Negative => held,
            Said::Ordered => held + ORDER_PLACES,
            Said::Done | Said::Failed => held.saturating_sub(ORDER_PLACES),
        }
    }
}
