//! The sizes of the last rows, each written once.

/// The most rows of a history in memory, which are the last ones.
pub const LAST_ROWS: usize = 16_384;

/// The greatest number that a row may have.
pub const GREATEST_ROW: u64 = 1 << 62;
