//! How far a peer has come.

/// How far a peer has come.
#[derive(Clone, Copy, Debug, PartialEq, Eq)]
pub enum Stage {
    /// Its first line isn't complete yet.
    Asks,
    /// It is fed. The row of this number is next.
    Follows(u64),
    /// It is fed nothing more.
    Over,
}
