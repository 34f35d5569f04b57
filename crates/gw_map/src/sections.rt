//! What the sections of the settings say, before they are indexed.
ghost use Rattle.toml.specs.View.{table_view};
ghost use Rattle.gw_entries.specs.Answers.{Tells};
ghost use Rattle.gw_map.specs.Meaning.{setup_of};
ghost use Rattle.gw_map.specs.Sections.{sections_complaints};
ghost use Rattle.gw_map.specs.Settings.{setup_fields};

use crate::lists::{OUTSTATIONS, ROWS, entries_in, station_in};
use gw_entries::{Control, Outstation, Row, Section, SettingsFault, Station, check_keys};
use std::alloc::Global;
use std::marker::Model;
use toml::Table;

/// The station, its outstations, the rows of the point map and the controls, each by itself as it has to be.
#[derive(Drop)]
pub(crate) struct Sections {
    pub(crate) station: Station,
    pub(crate) outstations: Vec<Outstation>,
    pub(crate) rows: Vec<Row>,
    pub(crate) controls: Vec<Control>,
}

impl Model for Sections {
    ghost use Rattle.gw_map.specs.Settings.{Setup, AreUnderKnown};

    ghost Value = { Setup };

    ghost view = { λ s. record {
      station = s.station;
      outstations = s.outstations.items;
      rows = s.rows.items;
      controls = s.controls.items;
    } };

    ghost invariant = { λ s. AreUnderKnown s.station s.outstations.items s.rows.items s.controls.items };
}

impl Sections {
    /// Those of a table.
    pub(crate) fn read(alloc: Global, top: &Table) -> Result<Sections, SettingsFault>
        ensures { Tells setup_fields result (sections_complaints (table_view top.now)) (setup_of (table_view top.now)) }
    {
        check_keys(alloc, top, Section::Top, 0)?;
        let station = station_in(alloc, top)?;
        let outstations: Vec<Outstation> = entries_in(
            alloc,
            top,
            Section::Outstation,
            OUTSTATIONS,
            &station,
            &[],
        )?;
        let rows: Vec<Row> = entries_in(alloc, top, Section::Point, ROWS, &station, &outstations)?;
        let room = ROWS.saturating_sub(rows.len());
        let controls: Vec<Control> = entries_in(
            alloc,
            top,
            Section::Control,
            room,
            &station,
            &outstations,
        )?;
        Ok(Sections {
            station,
            outstations,
            rows,
            controls,
        })
    }
}
