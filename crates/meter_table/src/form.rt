//! The forms of a table.

/// The form of a table.
#[derive(Clone, Copy, Debug, PartialEq, Eq)]
pub enum Form {
    /// For people: litres with three decimals.
    Text,
    /// Comma-separated values: a line of titles, and a line for each.
    Csv,
    /// JSON: an object for each, one on each line.
    Json,
}
