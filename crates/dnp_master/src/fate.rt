//! What becomes of orders.

use dnp_app::Operation;

/// What became of an order.
#[derive(Clone, Copy)]
pub enum Fate {
    /// The outstation did it.
    Done,
    /// The outstation gave the command of this request back with this control status, which isn't 0.
    Refused(Operation, u8),
    /// The outstation answered this request, and didn't give its command back.
    Otherwise(Operation),
    /// No answer to this request came in time.
    Unanswered(Operation),
    /// The outstation was lost.
    Lost,
    /// The session of its client ended before it was given.
    LetGo,
}
