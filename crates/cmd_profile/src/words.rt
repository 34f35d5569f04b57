//! The words of settings and of lists.

use gw_map::{Mode, Operates, Show};
use gw_model::Kind;

/// What a kind of point is called.
pub fn kind_word(kind: Kind) -> &'static str {
    match kind {
        Kind::Binary => "binary",
        Kind::Output => "output",
        Kind::Double => "double",
        Kind::Counter => "counter",
        Kind::Analog => "analog",
    }
}

/// How a point is shown.
pub fn show_word(show: Show) -> &'static str {
    match show {
        Show::Single => "single",
        Show::Double => "double",
        Show::Scaled => "scaled",
        Show::Word => "word",
        Show::Total => "total",
    }
}

/// How a control is shown.
pub fn control_word(operates: Operates) -> &'static str {
    match operates {
        Operates::Single(_) => "single",
        Operates::Double(_) => "double",
        Operates::Setpoint(_) => "setpoint",
    }
}

/// How an outstation is asked.
pub fn mode_word(mode: Mode) -> &'static str {
    match mode {
        Mode::Direct => "direct",
        Mode::Sbo => "sbo",
    }
}
