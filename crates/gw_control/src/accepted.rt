//! Executes that were accepted.
ghost use Rattle.std.specs.Prelude.{◌≡◌};
ghost use Rattle.gw_control.specs.Orders.{outcome_of};

use crate::answer::Outcome;
use gw_model::Order;
use iec_command::Command;

/// An execute that was accepted, with its order.
#[derive(Clone, Copy)]
pub struct Accepted {
    pub order: Order,
    /// Whose it is, in which session.
    pub client: u8,
    pub session: u64,
    pub command: Command,
}

impl Accepted {
    /// What became of it.
    pub fn outcome(&self, done: bool) -> Outcome
        ensures { result ≡ outcome_of done self.now }
    {
        Outcome {
            client: self.client,
            session: self.session,
            command: self.command,
            done,
        }
    }
}

/// An accepted execute whose order is under way to its outstation.
#[derive(Clone, Copy)]
pub struct UnderWay {
    pub accepted: Accepted,
    /// Its session has ended, so its outcome is told nobody.
    pub left: bool,
}
