//! How many of a list of reports would be news.
ghost use Rattle.std.specs.Prelude.{◌≡◌, length, slice_get};
ghost use Rattle.gw_time.specs.Rule.{clocks_of};
ghost use Rattle.gw_map.specs.Settings.{row_from};
ghost use Rattle.gw_picture.specs.Picture.{news_of, news_of_report, observation_after_report, picture_after};

use crate::taking::without_time;
use gw_map::Settings;
use gw_model::{Observation, Report};
use gw_time::Zone;
use gw_translate::{image, is_news};

/// What is shown at a place after one report more.
fn next_shown(
    last: Observation,
    position: usize,
    report: &Report,
    settings: &Settings,
    zone: &Zone,
) -> Observation
    ensures { let found = row_from 0 report.now.key settings.now.rows in
        result ≡ observation_after_report (clocks_of zone.now) report.now position last found }
{
    match settings.row_of(&report.key) {
        Some((at, row)) if at == position => without_time(image(report, row, zone)),
        _ => last,
    }
}

/// What is shown at a place once reports were taken in turn.
fn shown_once_taken(
    shown: &[Observation],
    position: usize,
    reports: &[Report],
    settings: &Settings,
    zone: &Zone,
) -> Option<Observation>
    ensures { result
        ≡ slice_get (picture_after (clocks_of zone.now) settings.now.rows shown.now reports.now) position }
{
    let mut last = *shown.get(position)?;
    for report in reports {
        last = next_shown(last, position, report, settings, zone);
    }
    Some(last)
}

/// How many news a report is once others were taken in turn: 0 or 1.
fn is_news_after(
    shown: &[Observation],
    earlier: &[Report],
    report: &Report,
    settings: &Settings,
    zone: &Zone,
) -> u64
    ensures { let clocks = (clocks_of zone.now) in
        let before = picture_after clocks settings.now.rows shown.now earlier.now in
        result ≡ length (news_of_report clocks settings.now.rows before report.now) }
{
    let Some((position, row)) = settings.row_of(&report.key) else {
        return 0;
    };
    let image = image(report, row, zone);
    match shown_once_taken(shown, position, earlier, settings, zone) {
        Some(before) if is_news(report, &before, &image) => 1,
        _ => 0,
    }
}

/// How many of these reports, taken in turn, would be news. Since nothing is kept between them it takes
/// time with the square of their number: it is asked only where a count of 64 bits is nearly used up.
pub fn count_news(
    shown: &[Observation],
    reports: &[Report],
    settings: &Settings,
    zone: &Zone,
) -> u64
    ensures { result ≡ length (news_of (clocks_of zone.now) settings.now.rows shown.now reports.now) }
{
    let mut news = 0;
    for position in 0..reports.len() {
        let (earlier, _) = reports.split_at(position);
        news += is_news_after(shown, earlier, &reports[position], settings, zone);
    }
    news
}
