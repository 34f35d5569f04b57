//! Controls, and how they operate points of outstations.
ghost use Rattle.std.specs.Prelude.{◌≤◌};

use crate::row::Scale;

/// How an outstation is asked.
#[derive(Clone, Copy)]
pub enum Mode {
    /// Direct operate.
    Direct,
    /// Select before operate.
    Sbo,
}

/// How a switch is operated where a command leaves it open.
#[derive(Clone, Copy)]
pub enum Rest {
    /// It stays as it is set.
    Latch,
    /// By a short pulse.
    Short,
}

/// How a switch is operated.
#[derive(Clone, Copy)]
pub struct Pulses {
    pub rest: Rest,
    /// A short pulse, from 1 to 3600000 milliseconds.
    pub short_ms: u32,
    /// A long pulse, from 1 to 3600000 milliseconds.
    pub long_ms: u32,
    pub ghost short_from: { 1 ≤ short_ms },
    pub ghost short_to: { short_ms ≤ 3600000 },
    pub ghost long_from: { 1 ≤ long_ms },
    pub ghost long_to: { long_ms ≤ 3600000 },
}

/// What a client's command does.
#[derive(Clone, Copy)]
pub enum Operates {
    /// A single command (type 45) operates a switch.
    Single(Pulses),
    /// A double command (type 46) operates a switch.
    Double(Pulses),
    /// A set-point command with a scaled value (type 49) sets a value.
    Setpoint(Scale),
}

/// A control point of an outstation, and the information object address by which clients command it.
#[derive(Clone, Copy)]
pub struct Control {
    /// The position of the outstation.
    pub outstation: u8,
    /// The index of the control point.
    pub index: u16,
    /// The common address of its outstation, from 1 to 65534.
    pub common_address: u16,
    /// The information object address, from 1 to 16777215.
    pub address: u32,
    /// Clients must select before they execute.
    pub select: bool,
    pub mode: Mode,
    pub operates: Operates,
    pub ghost common_from: { 1 ≤ common_address },
    pub ghost common_to: { common_address ≤ 65534 },
    pub ghost from: { 1 ≤ address },
    pub ghost to: { address ≤ 16777215 },
}

/// What a control is shown as.
#[derive(Clone, Copy)]
pub enum ControlShow {
    Single,
    Double,
    Setpoint,
}
