//! The forms of the table.

/// The form of the table of shifts.
#[derive(Clone, Copy, Debug, PartialEq, Eq)]
pub enum Form {
    /// A line of words for each shift.
    Text,
    /// JSON: an object for each shift, one on each line.
    Json,
}
