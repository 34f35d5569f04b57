//! The columns of a list.

/// The columns that a list may have, in the order in which they are written.
pub const COLUMNS: [&str; 15] = [
    "name",
    "description",
    "outstation",
    "kind",
    "index",
    "common_address",
    "address",
    "show",
    "num",
    "den",
    "select",
    "mode",
    "rest",
    "short_ms",
    "long_ms",
];

/// Those that every list has.
pub(crate) const NEEDED: [&str; 4] = ["outstation", "kind", "index", "address"];

/// The column that a text in the first row names. Its letters may be large or small, and a space stands for `_`.
pub(crate) fn column_named(text: &str) -> Option<&'static str> {
    for column in &COLUMNS {
        if is_name_of(text, column) {
            return Some(column);
        }
    }
    None
}

/// Whether a text names a column.
fn is_name_of(text: &str, column: &str) -> bool {
    if text.len() != column.len() {
        return false;
    }
    for (octet, wanted) in text.bytes().zip(column.bytes()) {
        let is_space = octet == b' ' && wanted == b'_';
        if !is_space && octet.to_ascii_lowercase() != wanted {
            return false;
        }
    }
    true
}
