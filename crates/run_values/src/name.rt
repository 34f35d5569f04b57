//! What points and outstations are called.

use cmd_text::{OTHER_SEPARATOR, wants_apostrophe};
use csv::WriterBuilder;
use std::alloc::{AllocError, Global};

/// What something is called; empty where it has no name.
#[derive(Drop)]
pub(crate) struct Name {
    pub(crate) text: String,
    /// The same as a field of CSV (RFC 4180), which no spreadsheet takes for a formula.
    pub(crate) field: String,
}

impl Name {
    /// A name, if there is one.
    pub(crate) fn of(alloc: Global, name: Option<&str>) -> Result<Name, AllocError> {
        let text = name.unwrap_or("");
        Ok(Name {
            field: field_of(alloc, text)?,
            text: String::from_str(alloc, text)?,
        })
    }
}

/// A text of a person as a field.
fn field_of(alloc: Global, text: &str) -> Result<String, AllocError> {
    let front = if wants_apostrophe(text) { "'" } else { "" };
    let cell = format!(in alloc; "{front}{text}")?;
    let field = quote(alloc, cell.as_str())?;
    String::from_utf8(field).map_err(|_| AllocError)
}

/// A cell as a field. The writer quotes one with the mark of its comments, as one with a separator.
fn quote(alloc: Global, cell: &str) -> Result<Vec<u8>, AllocError> {
    let mut writer = WriterBuilder::new()
        .comment(Some(OTHER_SEPARATOR))
        .from_writer(Vec::new(alloc));
    writer.write_field(cell.as_bytes()).map_err(|_| AllocError)?;
    writer.into_inner().map_err(|_| AllocError)
}
