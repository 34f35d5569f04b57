//! The types of ASDU by which points are shown and controls are commanded (IEC 60870-5-101, 7.2.1).

use gw_map::{Operates, Row, Show};

pub(crate) const SINGLE_COMMAND: &str = "45 C_SC_NA_1";

pub(crate) const DOUBLE_COMMAND: &str = "46 C_DC_NA_1";

pub(crate) const SETPOINT_COMMAND: &str = "49 C_SE_NB_1";

/// The types of process information by which a point is shown: number and name.
#[derive(Clone, Copy)]
pub(crate) struct PointTypes {
    /// Without time.
    pub(crate) untimed: &'static str,
    /// With CP56Time2a.
    pub(crate) timed: &'static str,
    /// What both are called.
    pub(crate) about: &'static str,
}

/// The types by which a point is shown.
pub(crate) fn point_types(show: Show) -> PointTypes {
    match show {
        Show::Single => PointTypes {
            untimed: "1 M_SP_NA_1",
            timed: "30 M_SP_TB_1",
            about: "single-point information",
        },
        Show::Double => PointTypes {
            untimed: "3 M_DP_NA_1",
            timed: "31 M_DP_TB_1",
            about: "double-point information",
        },
        Show::Word => PointTypes {
            untimed: "7 M_BO_NA_1",
            timed: "33 M_BO_TB_1",
            about: "bitstring of 32 bits",
        },
        Show::Scaled => PointTypes {
            untimed: "11 M_ME_NB_1",
            timed: "35 M_ME_TE_1",
            about: "measured value, scaled",
        },
        Show::Total => PointTypes {
            untimed: "15 M_IT_NA_1",
            timed: "37 M_IT_TB_1",
            about: "integrated totals",
        },
    }
}

/// The type by which clients command a control: number and name.
pub(crate) fn command_type(operates: Operates) -> &'static str {
    match operates {
        Operates::Single(_) => SINGLE_COMMAND,
        Operates::Double(_) => DOUBLE_COMMAND,
        Operates::Setpoint(_) => SETPOINT_COMMAND,
    }
}

/// Whether a point is shown by these types.
pub(crate) fn is_shown(rows: &[Row], show: Show) -> bool {
    rows.iter().any(|row| row.show == show)
}
