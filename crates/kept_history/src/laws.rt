//! The law of the kept rows.

ghost use Rattle.kept_history.specs.Laws.{CanLeaveOutReads};

/// In each legal history, from whatever site, the kept rows are a legal history, replies included,
/// and lead to the same site.
pub fn reads_can_be_left_out()
    ensures { CanLeaveOutReads }
{}
