//! What is made of lists of points and controls: settings for a site, and what they call the points, the controls and the
//! outstations of settings; and lists of settings, written anew.
#![tactic(auto)]

mod doubts;
mod matching;
mod toml_text;
mod writing;

pub use cmd_lists::{
    BadList, CellProblem, List, ListFault, ListRow, Listed, MOST_TOLD, Outstations, Told, read_list,
};
pub use cmd_text::Names;
pub use doubts::{NameDoubt, name_doubts};
pub use matching::names_of;
pub use toml_text::settings_text;
pub use writing::list_text;
