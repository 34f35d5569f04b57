//! Controls: what a client asks of an outstation.

/// How a switch is operated.
#[derive(Clone, Copy)]
pub enum Shape {
    /// It stays as it is set.
    Latch,
    /// A pulse of this many milliseconds.
    Pulse(u32),
}

/// What is done to a control point.
#[derive(Clone, Copy)]
pub enum Act {
    /// Switch it on or off.
    Switch { on: bool, shape: Shape },
    /// Set it to a value.
    Set(i16),
}

/// An act on a control point of an outstation.
#[derive(Clone, Copy)]
pub struct Intent {
    pub outstation: u8,
    pub index: u16,
    pub act: Act,
}

/// An accepted command on its way to the outstation, with its number.
#[derive(Clone, Copy)]
pub struct Order {
    pub number: u64,
    pub intent: Intent,
    /// Select before operate, or else direct operate.
    pub sbo: bool,
}

/// What became of an order.
#[derive(Clone, Copy)]
pub struct Ended {
    pub number: u64,
    /// The outstation did it.
    pub done: bool,
}
