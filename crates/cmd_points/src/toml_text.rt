//! The settings of a list, as a TOML text.

use cmd_lists::{List, ListRow};
use cmd_text::Plain;
use gw_map::{Section, keys_of};
use std::alloc::{AllocError, Global};
use std::fmt::Write;
use toml::{Table, Value};

/// The settings whose points and controls are those of a list, and whose station and outstations are those of a site's
/// settings, as a TOML text. Names stand in comments.
pub fn settings_text(alloc: Global, site: &str, list: &List) -> Result<String, AllocError> {
    let mut text = String::new(alloc);
    write_settings(alloc, site, list, &mut text)?;
    Ok(text)
}

/// Writes them.
fn write_settings(
    alloc: Global,
    site: &str,
    list: &List,
    text: &mut String,
) -> Result<(), AllocError> {
    match toml::table_from_str(alloc, site) {
        Ok(site) => write_site(&site, text)?,
        Err(_) => return Err(AllocError),
    }
    write_rows(list, text)
}

/// Writes the station and the outstations of a site's settings.
fn write_site(site: &Table, text: &mut String) -> Result<(), AllocError> {
    if let Some(Value::Table(station)) = site.get("station") {
        write_table("[station]", Section::Station, station, text)?;
    }
    match site.get("outstation") {
        Some(Value::Array(outstations)) => write_outstations(outstations.as_slice(), text),
        _ => Ok(()),
    }
}

/// Writes the points and then the controls of a list.
fn write_rows(list: &List, text: &mut String) -> Result<(), AllocError> {
    for row in &list.rows {
        if row.listed.is_point() {
            write_row("[[point]]", row, text)?;
        }
    }
    for row in &list.rows {
        if row.listed.is_control() {
            write_row("[[control]]", row, text)?;
        }
    }
    Ok(())
}

fn write_outstations(outstations: &[Value], text: &mut String) -> Result<(), AllocError> {
    for outstation in outstations {
        if let Value::Table(outstation) = outstation {
            text.push('\n')?;
            write_table("[[outstation]]", Section::Outstation, outstation, text)?;
        }
    }
    Ok(())
}

/// Writes a table of the site's settings: the keys that stand in it, in the order of the documents.
fn write_table(
    head: &str,
    section: Section,
    table: &Table,
    text: &mut String,
) -> Result<(), AllocError> {
    writeln!(text, "{head}")?;
    for key in keys_of(section) {
        if let Some(value) = table.get(key.name) {
            write_pair(key.name, value, text)?;
        }
    }
    Ok(())
}

fn write_pair(key: &str, value: &Value, text: &mut String) -> Result<(), AllocError> {
    writeln!(text, "{key} = {value}")
}

/// Writes the table of a point or a control, behind its name.
fn write_row(head: &str, row: &ListRow, text: &mut String) -> Result<(), AllocError> {
    text.push('\n')?;
    if !row.name.is_empty() {
        write_name(row.name.as_str(), text)?;
    }
    writeln!(text, "{head}")?;
    row.write_keys(text)
}

fn write_name(name: &str, text: &mut String) -> Result<(), AllocError> {
    writeln!(text, "# {}", Plain(name))
}
