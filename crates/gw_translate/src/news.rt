//! Which images are news.
ghost use Rattle.std.specs.Prelude.{◌≡◌};
ghost use Rattle.gw_translate.specs.Image.{is_news_of};

use gw_model::{Observation, Report};

/// Whether a report's image is news, after what was shown of the point before: an event always is, a
/// static value where its value or quality differs.
pub fn is_news(report: &Report, before: &Observation, image: &Observation) -> bool
    ensures { result ≡ is_news_of report.now before.now image.now }
{
    report.event || !before.shows_same(image)
}
