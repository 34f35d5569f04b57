//! The picture: what was shown of each row of the point map last. By it a report is news or isn't.
#![tactic(auto)]

mod counting;
mod examples;
mod laws;
mod losing;
mod opening;
mod picture;
mod taking;

pub use examples::{losses_by_example, pictures_by_example};
pub use laws::{
    loss_in_log, loss_is_told_once, picture_keeps_rows, picture_of_the_log,
    report_changes_its_row_alone,
};
pub use picture::Picture;
