//! Where a walk over a history is.

/// Where a walk over a history is.
#[derive(Clone, Copy, Debug, PartialEq, Eq)]
pub(crate) enum WalkPlace {
    /// Before the first chapter, or behind one.
    Between,
    /// In a chapter.
    Within,
    /// At a chapter that is refused.
    Refused,
}
