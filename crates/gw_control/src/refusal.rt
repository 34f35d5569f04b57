//! Why a command is confirmed negatively.

/// Why a command for a control is confirmed negatively, or an execute of it is no order: the first of these in this order.
#[derive(Clone, Copy, PartialEq)]
pub enum Refusal {
    /// DCS is neither off nor on (IEC 60870-5-101, 7.2.6.16).
    NoState,
    /// QU isn't 0 to 3, or QL isn't 0 (7.2.6.26 and 7.2.6.39).
    Qualifier,
    /// The set point, multiplied by its scale, leaves 16 bits.
    OutOfRange,
    /// The outstation is down.
    OutstationDown,
    /// Another client has the control selected.
    SelectedByAnother,
    /// The client hasn't selected the control, or not any more.
    NotSelected,
    /// The client has selected the control for something else.
    UnlikeSelect,
    /// As many orders wait for the outstation as may.
    NoPlace,
}
