//! Translation of what outstations report into what clients are shown.
#![tactic(auto)]

mod examples;
mod images;
mod news;

pub use examples::{images_by_example, news_by_example, qualities_by_example, shows_by_example};
pub use images::{image, quality};
pub use news::is_news;
