//! What the gateway's programs share of input and texts: how they go through an input, read by read, line by line, each line
//! answered after the one before it; octets in hexadecimal, numbers in decimal digits, texts from outside and those that stand
//! in others, the names of a site's points, controls and outstations, how a record ends, and in what it goes on.
#![tactic(auto)]

mod answering;
mod behind;
mod decimal;
mod escaped;
pub mod examples;
mod hex;
mod line;
mod names;
mod pieces;
mod plain;
mod reading;
mod record_end;
mod spreadsheet_cell;
mod status;

pub use answering::{AnswersLines, answer_lines};
pub use behind::{Behind, write_behind};
pub use decimal::{number_8, number_64};
pub use escaped::Escaped;
pub use hex::{LONGEST_LINE, kept_is_enough, line_octets, push_spaced};
pub use names::Names;
pub use pieces::{OnePiece, Pieces};
pub use plain::Plain;
pub use reading::Stop;
pub use record_end::{RecordEnd, RecordEndCause};
pub use spreadsheet_cell::{OTHER_SEPARATOR, wants_apostrophe, without_apostrophe};
pub use status::finish;
