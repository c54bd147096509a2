//! Locks and clears: no transaction has two lockers at once, or two clears.

ghost use Rattle.written_site.specs.LockLaws.{AreClearedOnce, AreLockedByOne};
ghost use Rattle.written_site.specs.RowWords.{OfEvents, OfBooks};

/// For every list of events from the opening site of any configuration: between rows that lock a
/// transaction for two different tills there is an Unlock by the first till, or its SignOff. The
/// locks that are left afterwards are exactly the locking rows that no Unlock or Clear of the
/// transaction and no SignOff of that till follows. A row locks a transaction by a till's accepted
/// Lock, or when it sells a fuelling whose point was last released by the Prepay of a till that is
/// signed on at that row. The same holds for every legal history.
pub fn locked_by_one()
    ensures events { OfEvents AreLockedByOne }
    ensures books { OfBooks AreLockedByOne }
{}

/// For every list of events from the opening site of any configuration: no transaction is cleared
/// twice, and the till that clears one is the last that has locked it, by a lock that hasn't ended.
/// The same holds for every legal history.
pub fn cleared_once()
    ensures events { OfEvents AreClearedOnce }
    ensures books { OfBooks AreClearedOnce }
{}
