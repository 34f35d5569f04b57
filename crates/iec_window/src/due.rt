//! What is due by the timers.

/// What the timers ask for at a moment.
#[derive(Clone, Copy)]
pub enum Due {
    /// Nothing.
    None,
    /// A TESTFR act: t3 has passed.
    Test,
    /// The end of the connection: t1 has passed.
    Close,
}
