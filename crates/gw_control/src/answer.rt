//! What is said of a command, and what becomes of an order.

use iec_command::Command;

/// What is said of a command for a control.
#[derive(Clone, Copy)]
pub enum Answer {
    /// It is confirmed.
    Confirm,
    /// It is confirmed negatively.
    Negative,
    /// No control of its type has the addresses.
    Unknown,
    /// It is an order with this number; what is said of it is what becomes of the order.
    Ordered(u64),
}

/// What became of an execute that was an order.
#[derive(Clone, Copy)]
pub struct Outcome {
    /// Whose it was, in which session.
    pub client: u8,
    pub session: u64,
    pub command: Command,
    /// The outstation did it.
    pub done: bool,
}
