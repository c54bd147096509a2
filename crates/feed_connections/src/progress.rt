//! How far a connection has come.

/// How far a connection has come.
#[derive(Clone, Copy, Debug, PartialEq, Eq)]
pub enum Progress {
    /// It goes on at once.
    GoesOn,
    /// It waits for its peer, or for a row.
    Waits,
    /// It has to be closed.
    Over,
}
