//! What was shown of each row last.
ghost use Rattle.std.specs.Prelude.{◌≡◌, length, map, IfOk, IfSome};
ghost use Rattle.std.specs.List.{AllByRecursion};
ghost use Rattle.std.specs.Option.{option_to_list};
ghost use Rattle.gw_model.specs.Fit.{IsFit};
ghost use Rattle.gw_model.specs.Clocks.{Clocks};
ghost use Rattle.gw_map.specs.Settings.{station_clocks};
ghost use Rattle.gw_picture.specs.Loss.{losses_at, losses_of, picture_losing_at};
ghost use Rattle.gw_picture.specs.Picture.{news_of, news_of_report, picture_after_report};
ghost use Rattle.gw_picture.specs.Opening.{opening};
ghost use Rattle.gw_picture.specs.Shown.{IsShown};

use crate::counting::count_news;
use crate::losing::{count_losses, lose_at};
use crate::opening::opening_of;
use crate::taking::take_report;
use gw_map::Settings;
use gw_model::{Memory, Observation, Report};
use std::alloc::Global;
use std::marker::Model;

/// For each row of the point map its value and quality as last shown, without a time.
#[derive(Drop)]
pub struct Picture {
    shown: Vec<Observation>,
}

impl Model for Picture {
    ghost use Rattle.std.specs.Prelude.{List};
    ghost use Rattle.std.specs.List.{AllByRecursion};
    ghost use Rattle.gw_model.specs.declared.observation.Observation.{Observation as Shown};
    ghost use Rattle.gw_picture.specs.Shown.{IsShown};

    ghost Value = { List Shown };

    ghost view = { λ p. p.shown.items };

    ghost invariant = { λ p. AllByRecursion IsShown p.shown.items };
}

impl Picture {
    /// The picture before anything was reported.
    pub fn new(alloc: Global, settings: &Settings) -> Result<Picture, Memory>
        ensures shown { IfOk result (λ picture. picture ≡ map opening settings.now.rows) }
    {
        let shown = opening_of(alloc, settings.rows())?;
        Ok(Picture { shown })
    }

    /// An equal value, or `Memory` where there is no room for its rows.
    pub fn copy(&self) -> Result<Picture, Memory>
        ensures { IfOk result (λ copy. copy ≡ self.now) }
    {
        let shown = Vec::from_slice(*self.shown.allocator(), self.shown.as_slice())?;
        Ok(Picture { shown })
    }

    /// The same, in the memory of a picture that isn't needed any more, so that none is asked for where that suffices.
    pub fn copy_over(&self, spare: Picture) -> Result<Picture, Memory>
        ensures { IfOk result (λ copy. copy ≡ self.now) }
    {
        let Picture { mut shown } = spare;
        shown.clear();
        shown.extend_from_slice(self.shown.as_slice())?;
        Ok(Picture { shown })
    }

    /// What is shown, in the order of the rows: observations without time that an ASDU can carry.
    pub fn rows(&self) -> &[Observation]
        ensures shown { result.now ≡ self.now }
        ensures sendable { AllByRecursion IsShown self.now }
    {
        self.shown.as_slice()
    }

    /// How many of these reports, taken in turn, would be news. It needs no memory.
    pub fn news(&self, reports: &[Report], settings: &Settings) -> u64
        ensures { result
            ≡ length (news_of (station_clocks settings.now.station) settings.now.rows self.now reports.now) }
    {
        count_news(self.shown.as_slice(), reports, settings, &settings.zone())
    }

    /// Takes a report: gives its image where that is news, and shows it.
    pub fn take(&mut self, report: &Report, settings: &Settings) -> Option<Observation>
        ensures news { option_to_list result
            ≡ news_of_report (station_clocks settings.now.station) settings.now.rows self.old report.now }
        ensures shown { self.new
            ≡ picture_after_report (station_clocks settings.now.station) settings.now.rows self.old report.now }
        ensures fit { IfSome result (IsFit (station_clocks settings.now.station)) }
    {
        take_report(&mut self.shown, report, settings, &settings.zone())
    }

    /// How many observations the loss of an outstation is. It needs no memory.
    pub fn losses(&self, outstation: u8, settings: &Settings) -> usize
        ensures { result ≡ length (losses_of outstation settings.now.rows self.now) }
    {
        count_losses(self.shown.as_slice(), outstation, settings.rows())
    }

    /// What the loss of an outstation is for the row at a position: shows the row as not topical, or a
    /// total as invalid, and gives that, where the row is the outstation's and wasn't shown so. At every
    /// position in turn it is the loss of the outstation.
    pub fn lose(
        &mut self,
        position: usize,
        outstation: u8,
        settings: &Settings,
    ) -> Option<Observation>
        ensures news { option_to_list result ≡ losses_at outstation settings.now.rows self.old position }
        ensures shown { self.new ≡ picture_losing_at outstation settings.now.rows self.old position }
        ensures fit { (clocks : Clocks) → IfSome result (IsFit clocks) }
    {
        lose_at(&mut self.shown, position, outstation, settings.rows())
    }
}
