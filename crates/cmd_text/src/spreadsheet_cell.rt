//! What a spreadsheet would take a text for.

/// The mark that a spreadsheet may take for a separator of cells too, besides the comma.
pub const OTHER_SEPARATOR: u8 = b';';

/// Whether a text begins so that a spreadsheet takes it for a formula.
fn begins_formula(text: &str) -> bool {
    match text.chars().next() {
        Some(first) => matches!(first, '=' | '+' | '-' | '@' | '\t' | '\r'),
        None => false,
    }
}

/// Whether a text would be taken for a formula but for the apostrophes in front of it, if there are any.
pub fn wants_apostrophe(text: &str) -> bool {
    begins_formula(text.trim_start_matches('\''))
}

/// What a cell says: without the apostrophe that keeps a spreadsheet from taking it for a formula.
pub fn without_apostrophe(cell: &str) -> &str {
    match cell.strip_prefix('\'') {
        Some(text) if wants_apostrophe(text) => text,
        _ => cell,
    }
}
