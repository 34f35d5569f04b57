//! What a report changes of what is shown.
ghost use Rattle.std.specs.Prelude.{◌≡◌, IfSome, slice_get};
ghost use Rattle.std.specs.List.{AllByRecursion};
ghost use Rattle.std.specs.Option.{option_to_list};
ghost use Rattle.gw_model.specs.Fit.{IsFit};
ghost use Rattle.gw_model.specs.Places.{change};
ghost use Rattle.gw_time.specs.Rule.{clocks_of};
ghost use Rattle.gw_picture.specs.Picture.{news_after, news_of_report, picture_after_report, without_time};
ghost use Rattle.gw_picture.specs.Shown.{IsShown};

use gw_map::Settings;
use gw_model::{Observation, Report, Stamp};
use gw_time::Zone;
use gw_translate::{image, is_news};

/// An observation without its time, as a picture shows it.
pub fn without_time(image: Observation) -> Observation
    ensures { result ≡ without_time image }
{
    Observation {
        stamp: Stamp::Untimed,
        ..image
    }
}

/// Shows an image at a place, and gives it where it is news after what was shown there.
fn show_at(
    shown: &mut Vec<Observation>,
    position: usize,
    report: &Report,
    image: Observation,
) -> Option<Observation>
    ensures news { option_to_list result ≡ news_after report.now (slice_get shown.old.items position) image }
    ensures shown { shown.new.items ≡ change position (λ _. without_time image) shown.old.items }
    ensures same { IfSome result (λ x. x ≡ image) }
{
    if position >= shown.len() {
        return None;
    }
    let before = shown[position];
    shown[position] = without_time(image);
    if is_news(report, &before, &image) {
        Some(image)
    } else {
        None
    }
}

/// Takes a report: gives its image where that is news, and shows it.
pub fn take_report(
    shown: &mut Vec<Observation>,
    report: &Report,
    settings: &Settings,
    zone: &Zone,
) -> Option<Observation>
    ensures news { option_to_list result
        ≡ news_of_report (clocks_of zone.now) settings.now.rows shown.old.items report.now }
    ensures shown { shown.new.items
        ≡ picture_after_report (clocks_of zone.now) settings.now.rows shown.old.items report.now }
    ensures fit { IfSome result (IsFit (clocks_of zone.now)) }
    ensures keeps { AllByRecursion IsShown shown.old.items → AllByRecursion IsShown shown.new.items }
{
    match settings.row_of(&report.key) {
        None => None,
        Some((position, row)) => {
            let image = image(report, row, zone);
            show_at(shown, position, report, image)
        }
    }
}
