//! One table of a settings file: the station, an outstation, a point's row of the point map, or a control; and what is
//! wrong with it.
#![tactic(auto)]

mod control;
mod controls;
mod entry;
mod fault;
mod key;
mod keys;
mod outstation;
mod points;
mod row;
mod rule;
mod scaling;
mod station;

pub use control::{Control, Mode, Operates, Pulses, Rest};
pub use controls::read_control;
pub use entry::value_at;
pub use fault::{Fault, KeyFault, KeyName, KeyPlace, Section, SettingsFault};
pub use key::{Absence, Key, KeyContent};
pub use keys::{check_keys, keys_of};
pub use outstation::{Outstation, read_outstation};
pub use points::read_row;
pub use row::{Row, Scale, Show};
pub use station::{Station, read_station};
