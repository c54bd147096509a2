//! Laws of the transactions. They have no code: each is proved for the definitions that the
//! contracts of this crate cite.

ghost use Rattle.transaction_buffer.specs.Laws.{DoAddUp, DoMove, DoTell, HasOneLocker};
ghost use Rattle.transaction_buffer.specs.Laws.{IsClearedByItsLocker, IsClearedForGood};
ghost use Rattle.transaction_buffer.specs.Laws.{IsCountedAfter, IsReadAfter, IsSummedAfter};

/// What a reply tells. An answer means that nothing refused the request, and it is the answer in
/// the table's line. A refusal is the one in the table's line, and means that no transaction
/// changes.
pub fn replies_tell()
    ensures { DoTell }
{}

/// A transaction that is cleared stays as it is, whatever a till asks, whoever signs off and
/// whatever is sold.
pub fn cleared_for_good()
    ensures { IsClearedForGood }
{}

/// A clear is accepted only of a transaction that this till has locked, and is answered with its
/// cents.
pub fn cleared_by_its_locker()
    ensures { IsClearedByItsLocker }
{}

/// A transaction has at most one locker. A lock is accepted only if no other till has locked the
/// transaction, and an unlock only from the till that has. A lock by the till that has locked it
/// changes nothing. An accepted lock makes the till that asked for it the locker. After an accepted
/// unlock or clear, or the sign-off of the locker, there is none. A new sale has the locker with
/// which it is sold. Every other transaction keeps its locker.
pub fn one_locker()
    ensures { HasOneLocker }
{}

/// What a name leads to after each change: its own transaction, and no other.
pub fn read_after()
    ensures { IsReadAfter }
{}

/// Only a sale raises the number of sales that a point has made, by one, and the number of its
/// unpaid sales.
pub fn counted_after()
    ensures { IsCountedAfter }
{}

/// How each change moves the sum of any figure over the sales.
pub fn summed_after()
    ensures { IsSummedAfter }
{}

/// A product's payable, locked and cleared volumes add up to its volume in all sales.
pub fn volumes_add_up()
    ensures { DoAddUp }
{}

/// How each change moves a product's volumes from one status to another. Only a sale changes the
/// volume in all sales.
pub fn volumes_move()
    ensures { DoMove }
{}
