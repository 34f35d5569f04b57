//! What reports and losses show, and what of it comes to the clients.
ghost use Rattle.std.specs.Prelude.{◌≡◌, ◌+◌, ◌<◌, ◌^◌, length, map};
ghost use Rattle.std.specs.List.{AllByRecursion};
ghost use Rattle.gw_map.specs.Settings.{station_clocks};
ghost use Rattle.gw_picture.specs.Loss.{losses_at, losses_of, picture_after_loss, picture_losing_at};
ghost use Rattle.gw_picture.specs.Picture.{picture_after, picture_after_report};
ghost use Rattle.gw_station.specs.Client.{client_with_news};
ghost use Rattle.gw_answers.specs.Meaning.{IsSendable};
ghost use Rattle.gw_station.specs.Sound.{WaitsWithin};
ghost use Rattle.gw_hub.specs.Hub.{news_of_all, news_of_one};

use gw_map::Settings;
use gw_model::Report;
use gw_parts::Clients;
use gw_picture::Picture;

/// Takes a report; gives how many news it is.
fn take_report(
    picture: &mut Picture,
    clients: &mut Clients,
    settings: &Settings,
    report: &Report,
) -> u64
    requires count { clients.old.news + length (news_of_one settings.now picture.old report.now) < 2 ^ 64 }
    requires few { AllByRecursion WaitsWithin clients.old.each }
    ensures count { result ≡ length (news_of_one settings.now picture.old report.now) }
    ensures picture { picture.new
        ≡ picture_after_report (station_clocks settings.now.station) settings.now.rows picture.old report.now }
    ensures clients { clients.new.each
        ≡ map (client_with_news (news_of_one settings.now picture.old report.now)) clients.old.each }
    ensures news { clients.new.news
        ≡ clients.old.news + length (news_of_one settings.now picture.old report.now) }
    ensures sendable { AllByRecursion (IsSendable (station_clocks settings.now.station))
        (news_of_one settings.now picture.old report.now) }
{
    match picture.take(report, settings) {
        None => 0,
        Some(image) => {
            clients.put(image);
            1
        }
    }
}

/// Takes reports in turn; gives how many news they are.
pub fn take_reports(
    picture: &mut Picture,
    clients: &mut Clients,
    settings: &Settings,
    reports: &[Report],
) -> u64
    requires count { clients.old.news + length (news_of_all settings.now picture.old reports.now) < 2 ^ 64 }
    requires few { AllByRecursion WaitsWithin clients.old.each }
    ensures count { result ≡ length (news_of_all settings.now picture.old reports.now) }
    ensures picture { picture.new
        ≡ picture_after (station_clocks settings.now.station) settings.now.rows picture.old reports.now }
    ensures clients { clients.new.each
        ≡ map (client_with_news (news_of_all settings.now picture.old reports.now)) clients.old.each }
    ensures news { clients.new.news
        ≡ clients.old.news + length (news_of_all settings.now picture.old reports.now) }
    ensures sendable { AllByRecursion (IsSendable (station_clocks settings.now.station))
        (news_of_all settings.now picture.old reports.now) }
{
    let mut news = 0;
    for report in reports {
        news += take_report(picture, clients, settings, report);
    }
    news
}

/// Shows the loss of the row at a position, which is news for the clients.
fn lose_row(
    picture: &mut Picture,
    clients: &mut Clients,
    settings: &Settings,
    position: usize,
    outstation: u8,
)
    requires count { clients.old.news + length (losses_at outstation settings.now.rows picture.old position) < 2 ^ 64 }
    requires few { AllByRecursion WaitsWithin clients.old.each }
    ensures picture { picture.new ≡ picture_losing_at outstation settings.now.rows picture.old position }
    ensures clients { clients.new.each
        ≡ map (client_with_news (losses_at outstation settings.now.rows picture.old position)) clients.old.each }
    ensures news { clients.new.news
        ≡ clients.old.news + length (losses_at outstation settings.now.rows picture.old position) }
    ensures sendable { AllByRecursion (IsSendable (station_clocks settings.now.station))
        (losses_at outstation settings.now.rows picture.old position) }
{
    if let Some(news) = picture.lose(position, outstation, settings) {
        clients.put(news);
    }
}

/// Shows the loss of an outstation, row by row, which are news for the clients.
pub fn lose_rows(picture: &mut Picture, clients: &mut Clients, settings: &Settings, outstation: u8)
    requires count { clients.old.news + length (losses_of outstation settings.now.rows picture.old) < 2 ^ 64 }
    requires few { AllByRecursion WaitsWithin clients.old.each }
    ensures picture { picture.new ≡ picture_after_loss outstation settings.now.rows picture.old }
    ensures clients { clients.new.each
        ≡ map (client_with_news (losses_of outstation settings.now.rows picture.old)) clients.old.each }
    ensures news { clients.new.news
        ≡ clients.old.news + length (losses_of outstation settings.now.rows picture.old) }
    ensures sendable { AllByRecursion (IsSendable (station_clocks settings.now.station))
        (losses_of outstation settings.now.rows picture.old) }
{
    for position in 0..picture.rows().len() {
        lose_row(picture, clients, settings, position, outstation);
    }
}
