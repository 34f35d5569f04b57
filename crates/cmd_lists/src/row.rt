//! Reading a row of a list, and judging its cells.

use crate::allowed::Allowed;
use crate::cell::{CellValue, KeyValue, number_at, word_at};
use crate::cells::Cells;
use crate::columns::COLUMNS;
use crate::fault::ListFault;
use crate::kinds::{KIND_WORDS, RowKind, shows_of};
use crate::list::{ListRow, Listed};
use crate::problem::{CellProblem, shorten};
use crate::reading::Outstations;
use crate::told::Told;
use cmd_text::without_apostrophe;
use gw_map::{Absence, Key, Section, keys_of};
use gw_model::{Kind, PointKey};
use std::alloc::AllocError;

/// How many characters a name or a description may have.
const LONGEST_TEXT: usize = 1000;

/// The common addresses that there are.
const COMMON_ADDRESSES: Allowed = Allowed::Number(1, 65_534);

/// The columns that mean the same in rows of any kind: they are judged also where the kind can't be read.
const OF_ANY_KIND: [&str; 5] = ["outstation", "index", "address", "num", "den"];

/// The columns in which nothing stands that is operated by a value.
const OF_SWITCHES: [&str; 3] = ["rest", "short_ms", "long_ms"];

/// The columns in which nothing stands that isn't scaled.
const OF_SCALES: [&str; 2] = ["num", "den"];

/// The row of these cells, if it can be read; and what is wrong with it.
pub(crate) fn read_row(
    cells: &Cells<'_>,
    outstations: &Outstations<'_>,
    faults: &mut Told<ListFault>,
) -> Result<Option<ListRow>, AllocError> {
    let before = faults.count();
    let mut row = ListRow {
        row: cells.row,
        name: String::new(cells.alloc),
        description: String::new(cells.alloc),
        // (This is known once the cells are read.)
        listed: Listed::Outstation(0),
        common_address: None,
        keys: Vec::new(cells.alloc),
    };
    match read_cells(cells, outstations, &mut row, faults)? {
        Some(listed) if faults.count() == before => {
            row.listed = listed;
            Ok(Some(row))
        }
        _ => Ok(None),
    }
}

/// Reads the cells of a row into it, and adds what is wrong with them; gives what the row is of, if its kind can be read.
fn read_cells(
    cells: &Cells<'_>,
    outstations: &Outstations<'_>,
    row: &mut ListRow,
    faults: &mut Told<ListFault>,
) -> Result<Option<Listed>, AllocError> {
    let kind = read_kind(cells, faults)?;
    read_keys(cells, kind, outstations, &mut row.keys, faults)?;
    read_text(cells, "name", &mut row.name, faults)?;
    read_text(cells, "description", &mut row.description, faults)?;
    row.common_address = read_common_address(cells, &row.keys, outstations, faults)?;
    match kind {
        Some(kind) => {
            judge_fit(cells, kind, &row.keys, faults)?;
            Ok(Some(listed_by(kind, &row.keys)))
        }
        None => Ok(None),
    }
}

/// Adds what is wrong with a cell.
fn refuse(
    cells: &Cells<'_>,
    column: &'static str,
    problem: CellProblem,
    faults: &mut Told<ListFault>,
) -> Result<(), AllocError> {
    faults.add(ListFault::Cell {
        row: cells.row,
        column,
        problem,
    })
}

/// Adds that what stands in a cell isn't allowed there, or that something is wanted.
fn refuse_text(
    cells: &Cells<'_>,
    column: &'static str,
    allowed: Allowed,
    faults: &mut Told<ListFault>,
) -> Result<(), AllocError> {
    let found = cells.at(column);
    let problem = if found.is_empty() {
        CellProblem::Empty(allowed)
    } else {
        CellProblem::not_allowed(cells.alloc, found, allowed)?
    };
    refuse(cells, column, problem, faults)
}

/// What the row is of.
fn read_kind(
    cells: &Cells<'_>,
    faults: &mut Told<ListFault>,
) -> Result<Option<RowKind>, AllocError> {
    let kind = RowKind::from_word(cells.at("kind"));
    if kind.is_none() && cells.have("kind") {
        refuse_text(cells, "kind", Allowed::Kind(&KIND_WORDS), faults)?;
    }
    Ok(kind)
}

/// Adds the text of a column, without the apostrophe that keeps a spreadsheet from taking it for a formula.
fn read_text(
    cells: &Cells<'_>,
    column: &'static str,
    text: &mut String,
    faults: &mut Told<ListFault>,
) -> Result<(), AllocError> {
    let found = without_apostrophe(cells.at(column));
    if found.chars().count() > LONGEST_TEXT {
        refuse_text(cells, column, Allowed::Text(LONGEST_TEXT), faults)
    } else {
        text.push_str(found)
    }
}

/// Adds the keys of the row's table of the settings that stand in it.
fn read_keys(
    cells: &Cells<'_>,
    kind: Option<RowKind>,
    outstations: &Outstations<'_>,
    keys: &mut Vec<KeyValue>,
    faults: &mut Told<ListFault>,
) -> Result<(), AllocError> {
    let all = match kind {
        Some(kind) => kind.keys(),
        None => keys_of(Section::Point),
    };
    for key in all {
        if key.name != "kind" && is_read(kind, key.name) {
            read_key(cells, key, outstations, keys, faults)?;
        }
    }
    Ok(())
}

/// Whether a column is read of a row of a kind, if it has one.
fn is_read(kind: Option<RowKind>, column: &str) -> bool {
    match kind {
        Some(kind) => kind.has(column),
        None => OF_ANY_KIND.contains(&column),
    }
}

/// Adds what stands at a key of the row's table of the settings.
fn read_key(
    cells: &Cells<'_>,
    key: &Key,
    outstations: &Outstations<'_>,
    keys: &mut Vec<KeyValue>,
    faults: &mut Told<ListFault>,
) -> Result<(), AllocError> {
    let (text, count) = (cells.at(key.name), outstations.count());
    if text.is_empty() && !is_missed(cells, key, outstations.are_all) {
        return Ok(());
    }
    match CellValue::read(key.content, text, count) {
        Some(value) => {
            keys.push(KeyValue {
                key: key.name,
                value,
            })?;
            Ok(())
        }
        None => refuse_text(cells, key.name, Allowed::at(key.content, count), faults),
    }
}

/// Whether the cell of a key is needed where nothing stands in it: of a column that is missing it is told once, unless
/// it is that of how a control is shown, which a list without controls does without, and one that only names them.
fn is_missed(cells: &Cells<'_>, key: &Key, is_for_settings: bool) -> bool {
    match key.absence {
        Absence::Required if key.name == "show" => is_for_settings,
        Absence::Required => cells.have(key.name),
        _ => false,
    }
}

/// The common address that stands in the row.
fn read_common_address(
    cells: &Cells<'_>,
    keys: &[KeyValue],
    outstations: &Outstations<'_>,
    faults: &mut Told<ListFault>,
) -> Result<Option<u16>, AllocError> {
    let text = cells.at("common_address");
    if text.is_empty() {
        return Ok(None);
    }
    let given = match text.parse::<u16>() {
        Ok(number) if 1 <= number && number <= 65_534 => number,
        _ => {
            refuse_text(cells, "common_address", COMMON_ADDRESSES, faults)?;
            return Ok(None);
        }
    };
    if outstations.are_all {
        judge_common_address(cells, keys, outstations, given, faults)?;
    }
    Ok(Some(given))
}

/// Judges a common address: that of the row's outstation, and no other, may stand there.
fn judge_common_address(
    cells: &Cells<'_>,
    keys: &[KeyValue],
    outstations: &Outstations<'_>,
    given: u16,
    faults: &mut Told<ListFault>,
) -> Result<(), AllocError> {
    if !keys.iter().any(|pair| pair.key == "outstation") {
        return Ok(());
    }
    match outstations.common_address(number_8(keys, "outstation")) {
        Some(common_address) if common_address != given => {
            let found = shorten(cells.alloc, cells.at("common_address"))?;
            let problem = CellProblem::OtherCommon(found, common_address);
            refuse(cells, "common_address", problem, faults)
        }
        _ => Ok(()),
    }
}

/// Judges whether what stands in the row goes together.
fn judge_fit(
    cells: &Cells<'_>,
    kind: RowKind,
    keys: &[KeyValue],
    faults: &mut Told<ListFault>,
) -> Result<(), AllocError> {
    for column in &COLUMNS {
        if !kind.has(column) {
            refuse_given(cells, column, kind.words(), faults)?;
        }
    }
    match kind {
        RowKind::Outstation => Ok(()),
        RowKind::Point(kind) => judge_point(cells, kind, word_at(keys, "show"), faults),
        RowKind::Control => judge_control(cells, word_at(keys, "show"), faults),
    }
}

/// Refuses whatever stands in a column, since a row of this sort has nothing there.
fn refuse_given(
    cells: &Cells<'_>,
    column: &'static str,
    what: &'static str,
    faults: &mut Told<ListFault>,
) -> Result<(), AllocError> {
    if cells.at(column).is_empty() {
        return Ok(());
    }
    refuse(cells, column, CellProblem::Unfit(what), faults)
}

/// Judges whether a point can be shown as it is to be, and has a scale only where it is scaled.
fn judge_point(
    cells: &Cells<'_>,
    kind: Kind,
    show: Option<&'static str>,
    faults: &mut Told<ListFault>,
) -> Result<(), AllocError> {
    let shows = shows_of(kind);
    match show {
        Some(show) if !shows.contains(&show) => {
            refuse_text(cells, "show", Allowed::Words(shows), faults)
        }
        Some("scaled") => Ok(()),
        None if shows.contains(&"scaled") => Ok(()),
        _ => refuse_all(cells, &OF_SCALES, "a value that isn't scaled", faults),
    }
}

/// Judges whether a control has pulses where it is a switch alone, and a scale where it is a set point alone.
fn judge_control(
    cells: &Cells<'_>,
    show: Option<&'static str>,
    faults: &mut Told<ListFault>,
) -> Result<(), AllocError> {
    match show {
        Some("setpoint") => refuse_all(cells, &OF_SWITCHES, "a set point", faults),
        Some(_) => refuse_all(cells, &OF_SCALES, "a single or double command", faults),
        None => Ok(()),
    }
}

/// Refuses whatever stands in some columns.
fn refuse_all(
    cells: &Cells<'_>,
    columns: &[&'static str],
    what: &'static str,
    faults: &mut Told<ListFault>,
) -> Result<(), AllocError> {
    for column in columns {
        refuse_given(cells, column, what, faults)?;
    }
    Ok(())
}

/// What a row of a kind is of, by its keys.
fn listed_by(kind: RowKind, keys: &[KeyValue]) -> Listed {
    let outstation = number_8(keys, "outstation");
    let index = u16::try_from(number_at(keys, "index")).unwrap_or(u16::MAX);
    let address = u32::try_from(number_at(keys, "address")).unwrap_or(u32::MAX);
    match kind {
        RowKind::Outstation => Listed::Outstation(outstation),
        RowKind::Point(kind) => {
            let key = PointKey {
                outstation,
                kind,
                index,
            };
            Listed::Point(key, address)
        }
        RowKind::Control => Listed::Control {
            outstation,
            index,
            address,
        },
    }
}

/// The number of eight bits at a key.
fn number_8(keys: &[KeyValue], key: &str) -> u8 {
    u8::try_from(number_at(keys, key)).unwrap_or(u8::MAX)
}
