//! The sheet that is signed: what it is of, the interoperability list, the outstations, and the signals.

use crate::form::Form;
use crate::head::{Origin, write_head};
use crate::html::HtmlForm;
use crate::outstations::write_outstations;
use crate::sheet::write_sheet;
use crate::signals::{write_controls, write_points};
use crate::text::TextForm;
use cmd_text::Names;
use gw_map::Settings;
use std::alloc::Global;
use std::io::{self, Write};

/// Writes the sheet of settings as text, with names behind the lines of what they are of.
pub fn write_profile<W: Write>(
    alloc: Global,
    origin: Origin<'_>,
    settings: &Settings,
    names: &Names,
    writer: &mut W,
) -> io::Result<()> {
    write_in(&mut TextForm::new(alloc, writer), origin, settings, names)
}

/// Writes the same as an HTML document, which is printed on A4.
pub fn write_html_profile<W: Write>(
    alloc: Global,
    origin: Origin<'_>,
    settings: &Settings,
    names: &Names,
    writer: &mut W,
) -> io::Result<()> {
    write_in(&mut HtmlForm::new(alloc, writer), origin, settings, names)
}

/// Writes the sheet in a form.
fn write_in<F: Form>(
    form: &mut F,
    origin: Origin<'_>,
    settings: &Settings,
    names: &Names,
) -> io::Result<()> {
    write_head(origin, form)?;
    write_sheet(settings, form)?;
    write_outstations(settings, names, form)?;
    write_points(settings.rows(), names, form)?;
    write_controls(settings.controls(), names, form)?;
    form.end()
}
