//! What `gateway check FILE` writes of settings: a line for each point and each control; and with `--profile` the sheet
//! that is signed when they were tried, as text or as HTML: places for signatures, the interoperability list of
//! IEC 60870-5-104, clause 9, as they fill it in, the outstations, and the points and controls of their station. Names stand
//! with what they are of.
#![tactic(auto)]

mod causes;
mod commands;
mod effect;
mod form;
mod head;
mod html;
mod listing;
mod outstations;
mod profile;
mod sheet;
mod signals;
mod text;
mod types;
mod words;

pub use cmd_text::{Behind, Names, Plain};
pub use gw_map::{
    Absence, Control, Fault, Key, KeyContent, KeyName, KeyPlace, OUTSTATIONS, Operates, Outstation,
    ROWS, Row, Section, Settings, SettingsFault, Show, Station, keys_of,
};
pub use gw_model::{ClockRule, ObjectKey, PointKey, Poll};
pub use head::Origin;
pub use listing::write_listing;
pub use profile::{write_html_profile, write_profile};
pub use words::{control_word, kind_word, mode_word, show_word};
