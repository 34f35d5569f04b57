//! What `translate` decides of one line.
ghost use Rattle.std.specs.Prelude.{◌≡◌, ◌++◌, [], IfOk, OnOk};
ghost use Rattle.cmd_streams.specs.Translation.{Decides, news_in, picture_after_reports};

use cmd_text::line_octets;
use dnp_app::{AppFault, read_response};
use gw_map::Settings;
use gw_model::{Memory, Observation, Report};
use gw_picture::Picture;
use std::alloc::Global;

/// What becomes of a line.
#[derive(Clone, Copy)]
pub enum Decision {
    /// The line is empty, and is skipped.
    Empty,
    /// The line is no list of octets, or of too many.
    NotHex,
    /// The octets are refused.
    Refused(AppFault),
    /// The octets are a response, with the confirmation that it asks for.
    Accepted(Option<[u8; 2]>),
}

/// Takes reports in turn into a picture, and adds those that are news.
fn push_news(
    news: &mut Vec<Observation>,
    picture: &mut Picture,
    settings: &Settings,
    reports: &[Report],
) -> Result<(), Memory>
    ensures news { OnOk result (news.new.items ≡ news.old.items ++ news_in settings.now picture.old reports.now) }
    ensures picture { OnOk result (picture.new ≡ picture_after_reports settings.now picture.old reports.now) }
{
    for report in reports {
        if let Some(image) = picture.take(report, settings) {
            news.push(image)?;
        }
    }
    Ok(())
}

/// Decides what becomes of a line, read as a fragment of outstation 0; the news among its reports replace
/// those of the line before.
pub fn decide(
    alloc: Global,
    settings: &Settings,
    line: &[u8],
    picture: &mut Picture,
    news: &mut Vec<Observation>,
) -> Result<Decision, Memory>
    ensures { IfOk result (λ decision.
        Decides settings.now line.now decision news.new.items picture.old picture.new) }
{
    news.clear();
    if line.is_empty() {
        return Ok(Decision::Empty);
    }
    let Some(octets) = line_octets(alloc, line)? else {
        return Ok(Decision::NotHex);
    };
    match read_response(alloc, 0, octets) {
        Ok(response) => {
            push_news(news, picture, settings, response.reports())?;
            Ok(Decision::Accepted(response.confirmation()))
        }
        Err(fault) => Ok(Decision::Refused(fault)),
    }
}
