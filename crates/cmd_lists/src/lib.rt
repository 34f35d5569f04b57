//! Lists of points and controls, as spreadsheets hold them: one row a point or control, in CSV. A list is read for the
//! settings of a site, with all that is wrong with it.
#![tactic(auto)]

mod allowed;
mod cell;
mod cells;
mod columns;
mod doubles;
mod fault;
mod kinds;
mod layout;
mod list;
mod problem;
mod reading;
mod row;
mod told;

pub use columns::COLUMNS;
pub use fault::{BadList, ListFault};
pub use list::{List, ListRow, Listed};
pub use problem::CellProblem;
pub use reading::{Outstations, read_list};
pub use told::{MOST_TOLD, Told};
