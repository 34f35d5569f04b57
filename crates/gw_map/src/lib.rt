//! The settings of the gateway, read from a TOML text: the station, the outstations, the point map and the controls.
#![tactic(auto)]

mod common_addresses;
mod defaults;
pub mod examples;
mod indexes;
mod lists;
mod sections;
mod settings;

pub use defaults::DEFAULT_SETTINGS;
pub use gw_entries::{
    Absence, Control, Fault, Key, KeyContent, KeyFault, KeyName, KeyPlace, Mode, Operates,
    Outstation, Pulses, Rest, Row, Scale, Section, SettingsFault, Show, Station, keys_of,
};
pub use lists::{OUTSTATIONS, ROWS};
pub use settings::Settings;
