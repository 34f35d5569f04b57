//! The settings as a whole.
ghost use Rattle.std.specs.Prelude.{◌≡◌, IsTrue, option_map};
ghost use Rattle.std.specs.List.{AllByRecursion};
ghost use Rattle.std.specs.Result.{result_map_both};
ghost use Rattle.toml.specs.View.{table_view};
ghost use Rattle.gw_model.specs.Outcome.{Gives};
ghost use Rattle.gw_time.specs.Rule.{clocks_of};
ghost use Rattle.gw_entries.specs.Answers.{Tells};
ghost use Rattle.gw_map.specs.Sections.{complaints_of};
ghost use Rattle.gw_entries.specs.Faults.{refusal_of, is_no_memory};
ghost use Rattle.gw_map.specs.Meaning.{setup_of, reading_of};
ghost use Rattle.gw_entries.specs.Ranges.{IsStation, IsWithin};
ghost use Rattle.gw_map.specs.Settings.{setup_fields, station_clocks, known_addresses, is_known, row_from};
ghost use Rattle.gw_map.specs.Settings.{row_at_from, control_at_from, HasSingleSources, HasSingleAddresses};

use crate::indexes::Indexes;
use crate::sections::Sections;
use gw_entries::{Control, Outstation, Row, SettingsFault, Station};
use gw_model::{ObjectKey, PointKey};
use gw_time::Zone;
use indexmap::IndexMap;
use std::alloc::Global;
use std::collections::HashMap;
use std::fmt;
use std::marker::Model;
use toml::Table;

/// The station, its outstations, the point map and the controls. No two points have one source, and no two points
/// or controls one common address and address.
#[derive(Drop)]
pub struct Settings {
    station: Station,
    outstations: Vec<Outstation>,
    /// The point map, in the order of the file.
    points: IndexMap<PointKey, Row>,
    controls: Vec<Control>,
    known: Vec<u16>,
    /// The positions of the rows, and those of the controls, by their information objects.
    row_objects: HashMap<ObjectKey, usize>,
    control_objects: HashMap<ObjectKey, usize>,
}

impl Model for Settings {
    ghost use Rattle.std.specs.Map.{values_of};
    ghost use Rattle.gw_map.specs.Settings.{Setup, IsKept, AreKnown, AreUnderKnown};

    ghost Value = { Setup };

    ghost view = { λ s. record {
      station = s.station;
      outstations = s.outstations.items;
      rows = values_of s.points.entries;
      controls = s.controls.items;
    } };

    ghost invariant = { λ s. IsKept s.points.entries s.controls.items
        s.row_objects.entries s.control_objects.entries
        × AreKnown s.station s.outstations.items s.known.items
        × AreUnderKnown s.station s.outstations.items (values_of s.points.entries) s.controls.items };
}

impl fmt::Debug for Settings {
    fn fmt<W: fmt::Write>(&self, f: &mut fmt::Formatter<W>) -> fmt::Result {
        f.write_str("Settings { .. }")
    }
}

impl Settings {
    /// The settings of a TOML text.
    pub fn read(alloc: Global, text: &str) -> Result<Settings, SettingsFault>
        ensures { Gives is_no_memory (λ setup. setup) (result_map_both setup_fields refusal_of result)
            (reading_of text.now) }
    {
        match toml::table_from_str(alloc, text) {
            Ok(table) => Settings::from_table(alloc, &table),
            Err(error) if error.is_memory() => Err(SettingsFault::Memory),
            Err(error) => Err(SettingsFault::Toml(format!(in alloc; "{error}")?)),
        }
    }

    fn from_table(alloc: Global, top: &Table) -> Result<Settings, SettingsFault>
        ensures { Tells setup_fields result (complaints_of (table_view top.now)) (setup_of (table_view top.now)) }
    {
        let sections = Sections::read(alloc, top)?;
        let indexes = Indexes::of(alloc, &sections)?;
        Ok(Settings {
            station: sections.station,
            outstations: sections.outstations,
            points: indexes.points,
            controls: sections.controls,
            known: indexes.known,
            row_objects: indexes.row_objects,
            control_objects: indexes.control_objects,
        })
    }

    /// The station.
    pub fn station(&self) -> &Station
        ensures station { result.now ≡ self.now.station }
        ensures within { IsStation self.now.station }
    {
        let station = &self.station;
        let _known = station.common_address;
        station
    }

    /// The clocks of the station.
    pub fn zone(&self) -> Zone
        ensures { clocks_of result ≡ station_clocks self.now.station }
    {
        Zone {
            offset_minutes: self.station.offset_minutes,
            rule: self.station.rule,
        }
    }

    /// The outstations, in the order of the file.
    pub fn outstations(&self) -> &[Outstation]
        ensures { result.now ≡ self.now.outstations }
    {
        self.outstations.as_slice()
    }

    /// The common addresses that clients may use: those of the outstations, each once, in the order of their first
    /// outstation; without an outstation the station's alone.
    pub fn known_addresses(&self) -> &[u16]
        ensures known { result.now ≡ known_addresses self.now }
        ensures within { AllByRecursion (IsWithin 1 65534) (known_addresses self.now) }
    {
        self.known.as_slice()
    }

    /// Whether clients may use a common address.
    pub fn is_known(&self, common_address: u16) -> bool
        ensures { result ≡ is_known self.now common_address }
    {
        self.known.contains(&common_address)
    }

    /// The rows of the point map, in the order of the file.
    pub fn rows(&self) -> &[Row]
        ensures rows { result.now ≡ self.now.rows }
        ensures sources { HasSingleSources self.now.rows }
        ensures addresses { HasSingleAddresses self.now.rows self.now.controls }
        ensures known { AllByRecursion (λ (row : Row). IsTrue (is_known self.now row.common_address)) self.now.rows }
    {
        self.points.values().as_slice()
    }

    /// The controls, in the order of the file.
    pub fn controls(&self) -> &[Control]
        ensures controls { result.now ≡ self.now.controls }
        ensures known { AllByRecursion
            (λ (control : Control). IsTrue (is_known self.now control.common_address)) self.now.controls }
    {
        self.controls.as_slice()
    }

    /// The row for a point, with its position in `rows`.
    pub fn row_of(&self, key: &PointKey) -> Option<(usize, &Row)>
        ensures { option_map (λ found. (found.0, found.1.now)) result ≡ row_from 0 key.now self.now.rows }
    {
        let (position, _, row) = self.points.get_full(key)?;
        Some((position, row))
    }

    /// The row with a common address and an address, with its position in `rows`.
    pub fn row_at(&self, common_address: u16, address: u32) -> Option<(usize, &Row)>
        ensures { option_map (λ found. (found.0, found.1.now)) result
            ≡ row_at_from 0 common_address address self.now.rows }
    {
        let object = ObjectKey {
            common_address,
            address,
        };
        let position = *self.row_objects.get(&object)?;
        let (_, row) = self.points.get_index(position)?;
        Some((position, row))
    }

    /// The control with a common address and an address, with its position in `controls`.
    pub fn control_at(&self, common_address: u16, address: u32) -> Option<(usize, &Control)>
        ensures { option_map (λ found. (found.0, found.1.now)) result
            ≡ control_at_from 0 common_address address self.now.controls }
    {
        let object = ObjectKey {
            common_address,
            address,
        };
        let position = *self.control_objects.get(&object)?;
        Some((position, self.controls.get(position)?))
    }
}
