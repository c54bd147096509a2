//! Marking: each receipt must be its row, at a place that no other receipt has.

ghost use Rattle.std.specs.Prelude.{◌≡◌, ◌+◌, ◌≤◌, false, length, replicate, IfErr, IfNone, IfOk};
ghost use Rattle.std.specs.Prelude.{IfSome, OnOk};
ghost use Rattle.site_base.specs.declared.limits.TheConstants.{TILLS};
ghost use Rattle.site_base.specs.declared.config.TheConstants.{GREATEST_ROWS};
ghost use Rattle.written_site.specs.RowWords.{total};
ghost use Rattle.counter_desk.specs.Marks.{AreAllMarked, AreMarked, IsMarked, IsUnmarkable};
ghost use Rattle.counter_desk.specs.Marks.{weigh_marks};
ghost use Rattle.counter_desk.specs.Receipts.{cents_receipted, growth_receipted};
ghost use Rattle.counter_desk.specs.Roots.{calls_in, lists_of};
ghost use Rattle.counter_desk.specs.Settlement.{IsStrange, IsStrangeAmong, one_at};

use crate::locked::Locked;
use crate::naming::Naming;
use crate::receipt::{Receipt, Receipts};
use site_base::NoMemory;
use std::alloc::Global;
use std::sync::ledger::Ledger;

/// So many places, none of which is marked.
pub(crate) fn make_marks(alloc: Global, places: usize) -> Result<Vec<bool>, NoMemory>
    ensures { IfOk result (λ marks. marks.items ≡ replicate places false) }
{
    Ok(vec![in alloc; false; places]?)
}

/// Marks the place of each receipt of each list. The error is the place of the first strange one.
pub(crate) fn mark_all<L: Ledger, C: Naming>(
    site: &Locked<L, C>,
    marks: &mut [bool],
    lists: &[Receipts],
) -> Result<(), u64>
    requires { marks.old ≡ replicate (length site.now) false }
    ensures length { length marks.new ≡ length site.now }
    ensures ok { OnOk result (AreAllMarked site.now marks.new (lists_of lists.now)) }
    ensures err { IfErr result (λ place. IsStrange site.now (lists_of lists.now) place) }
{
    for receipts in lists {
        match mark_list(site, marks, receipts) {
            Ok(()) => {}
            Err(place) => return Err(place),
        }
    }
    Ok(())
}

/// Marks the place of each receipt of one list.
fn mark_list<L: Ledger, C: Naming>(
    site: &Locked<L, C>,
    marks: &mut [bool],
    receipts: &Receipts,
) -> Result<(), u64>
    requires { length marks.old ≡ length site.now }
    ensures length { length marks.new ≡ length marks.old }
    ensures ok { OnOk result (AreMarked site.now marks.old marks.new receipts.now.receipts) }
    ensures err { IfErr result (λ place. IsStrangeAmong site.now
        (weigh_marks (one_at place) 0 marks.old) receipts.now.receipts place) }
{
    let mut low = 0;
    for index in 0..receipts.len() {
        match &receipts.get(index) {
            Some(receipt) => match mark(site, marks, low, receipt) {
                Some(next) => low = next,
                None => return Err(receipt.place),
            },
            None => {}
        }
    }
    Ok(())
}

/// Marks the place of one receipt, which mustn't be below `low`, and gives the least place that the
/// next one may have. None where the receipt is strange.
fn mark<L: Ledger, C: Naming>(
    site: &Locked<L, C>,
    marks: &mut [bool],
    low: u64,
    receipt: &Receipt,
) -> Option<u64>
    requires { length marks.old ≡ length site.now }
    ensures length { length marks.new ≡ length marks.old }
    ensures next { IfSome result (λ next. next ≡ receipt.now.place + 1) }
    ensures marked { IfSome result (λ next. IsMarked site.now marks.old marks.new low receipt.now) }
    ensures unmarkable { IfNone result (IsUnmarkable site.now marks.old low receipt.now) }
{
    let _few = site.len();
    if receipt.place < low || !site.has(receipt) {
        return None;
    }
    let place = receipt.place as usize;
    if marks[place] {
        return None;
    }
    marks[place] = true;
    Some(receipt.place + 1)
}

/// The cents and the millilitres that all these receipts tell.
pub(crate) fn sum_amounts(lists: &[Receipts]) -> (u64, u64)
    requires { calls_in (lists_of lists.now) ≤ GREATEST_ROWS + TILLS }
    ensures cents { result.0 ≡ total cents_receipted (lists_of lists.now) }
    ensures millilitres { result.1 ≡ total growth_receipted (lists_of lists.now) }
{
    let mut cents = 0;
    let mut millilitres = 0;
    for receipts in lists {
        cents += receipts.cents();
        millilitres += receipts.millilitres();
    }
    (cents, millilitres)
}
