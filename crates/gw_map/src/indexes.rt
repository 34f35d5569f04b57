//! The point map, and the indexes of the settings: points and controls by their information object.
ghost use Rattle.std.specs.Prelude.{◌≡◌, [], List, map, codes, IfOk};
ghost use Rattle.std.specs.List.{AllByRecursion};
ghost use Rattle.gw_model.specs.Keys.{same_object};
ghost use Rattle.gw_entries.specs.Answers.{Passes, Tells};
ghost use Rattle.gw_entries.specs.Complaints.{complaint};
ghost use Rattle.gw_map.specs.Sections.{double_sources, repeated};
ghost use Rattle.gw_entries.specs.Faults.{refusal_of, refused};
ghost use Rattle.gw_entries.specs.Ranges.{IsWithin};
ghost use Rattle.gw_map.specs.Settings.{by_point, row_object, control_object, repeats_in, known_addresses, IsIndex};
ghost use Rattle.gw_entries.specs.declared.fault.Fault.TheVariants.{DoubleAddress};
ghost use Rattle.gw_entries.specs.declared.fault.Section.TheVariants as of;

use crate::common_addresses::known_addresses;
use crate::sections::Sections;
use gw_entries::{Control, Fault, KeyFault, Row, Section, SettingsFault};
use gw_model::{ObjectKey, PointKey};
use indexmap::IndexMap;
use std::alloc::Global;
use std::collections::HashMap;

/// The rows by their points, in the same order. The first row whose point has a row before is refused.
fn point_map(alloc: Global, rows: &[Row]) -> Result<IndexMap<PointKey, Row>, SettingsFault>
    ensures { Tells (λ points. points.entries) result (double_sources (map (λ row. row.key) rows.now)) (by_point rows.now) }
{
    let mut points = IndexMap::with_capacity(alloc, rows.len())?;
    for (position, row) in rows.iter().enumerate() {
        if points.insert(row.key, *row)?.is_some() {
            let fault = KeyFault {
                fault: Fault::DoubleSource,
                key: "index",
            };
            return Err(fault.at(Section::Point, position));
        }
    }
    Ok(points)
}

/// The information object is in use before.
fn double_address(section: Section, position: usize) -> SettingsFault
    ensures { refusal_of result ≡ refused (complaint section position (DoubleAddress, codes "address")) }
{
    let fault = KeyFault {
        fault: Fault::DoubleAddress,
        key: "address",
    };
    fault.at(section, position)
}

/// The positions of rows by their information objects. The first row whose object has a row before is refused.
fn row_index(alloc: Global, rows: &[Row]) -> Result<HashMap<ObjectKey, usize>, SettingsFault>
    ensures passes { Passes result (map (λ n. complaint of.Point n (DoubleAddress, codes "address"))
        (repeated same_object 0 [] (map row_object rows.now))) }
    ensures index { IfOk result (λ index. IsIndex same_object index.entries (map row_object rows.now)) }
{
    let mut index = HashMap::with_capacity(alloc, rows.len())?;
    for (position, row) in rows.iter().enumerate() {
        let object = ObjectKey {
            common_address: row.common_address,
            address: row.address,
        };
        if index.insert(object, position)?.is_some() {
            return Err(double_address(Section::Point, position));
        }
    }
    Ok(index)
}

/// The positions of controls by their information objects. The first control whose object is a point's, or has a control
/// before, is refused.
fn control_index(
    alloc: Global,
    row_objects: &HashMap<ObjectKey, usize>,
    controls: &[Control],
) -> Result<HashMap<ObjectKey, usize>, SettingsFault>
    ensures passes { (objects : List ObjectKey) → IsIndex same_object row_objects.now.entries objects
        → Passes result (map (λ n. complaint of.Control n (DoubleAddress, codes "address"))
        (repeated same_object 0 objects (map control_object controls.now))) }
    ensures index { IfOk result (λ index. IsIndex same_object index.entries (map control_object controls.now)) }
{
    let mut index = HashMap::with_capacity(alloc, controls.len())?;
    for (position, control) in controls.iter().enumerate() {
        let object = ObjectKey {
            common_address: control.common_address,
            address: control.address,
        };
        if row_objects.contains_key(&object) {
            return Err(double_address(Section::Control, position));
        }
        if index.insert(object, position)?.is_some() {
            return Err(double_address(Section::Control, position));
        }
    }
    Ok(index)
}

/// The point map of sections, with the indexes and the known addresses beside it.
#[derive(Drop)]
pub(crate) struct Indexes {
    /// The rows by their points, in the order of the file.
    pub(crate) points: IndexMap<PointKey, Row>,
    /// The positions of the rows, and those of the controls, by their information objects.
    pub(crate) row_objects: HashMap<ObjectKey, usize>,
    pub(crate) control_objects: HashMap<ObjectKey, usize>,
    /// The common addresses that clients may use.
    pub(crate) known: Vec<u16>,
}

impl Indexes {
    /// Those of sections. The first point or control whose source or information object stood before is refused.
    pub(crate) fn of(alloc: Global, sections: &Sections) -> Result<Indexes, SettingsFault>
        ensures points { Tells (λ indexes. indexes.points.entries) result (repeats_in sections.now)
            (by_point sections.now.rows) }
        ensures row_objects { IfOk result (λ indexes.
            IsIndex same_object indexes.row_objects.entries (map row_object sections.now.rows)) }
        ensures control_objects { IfOk result (λ indexes.
            IsIndex same_object indexes.control_objects.entries (map control_object sections.now.controls)) }
        ensures known { IfOk result (λ indexes. indexes.known.items ≡ known_addresses sections.now) }
        ensures within { IfOk result (λ indexes. AllByRecursion (IsWithin 1 65534) indexes.known.items) }
    {
        let known = known_addresses(alloc, &sections.station, &sections.outstations)?;
        let points = point_map(alloc, &sections.rows)?;
        let row_objects = row_index(alloc, &sections.rows)?;
        let control_objects = control_index(alloc, &row_objects, &sections.controls)?;
        Ok(Indexes {
            points,
            row_objects,
            control_objects,
            known,
        })
    }
}
