//! The values of points for people and programs: a table that is kept up to date by the news, written as a page, in CSV and
//! in JSON; and the news as lines of a sequence of events. Nothing here knows a thread, a socket or the core.
#![tactic(auto)]

mod csv_text;
mod dress;
mod event;
mod html_row;
mod json_row;
mod listing;
mod name;
mod page;
mod points;
mod shown;
mod table;
mod waiting;
mod words;

pub use dress::POLICY;
pub use event::{EVENT_COLUMNS, Event, EventLine, Gap, GapLine};
pub use listing::{Choice, Form, Listing};
pub use page::{FIRST_ROWS, PointsPage};
pub use points::Points;
pub use table::{PointValue, TableHead, ValueTable};
pub use waiting::{Entry, MOST_EVENTS, WaitingEvents};
