//! The end of a day: its desk is settled, whatever shares came back.

ghost use Rattle.std.specs.Prelude.{◌≡◌, ◌≢◌, IfErr, IfOk, OnOk};
ghost use Rattle.counter_desk.specs.Settlement.{IsFaultIn, IsFaultOut, Settles};

use crate::desk::Desk;
use crate::naming::Naming;
use crate::root::Root;
use crate::settlement::{SettleFault, Settled, Unsettled};
use site_base::NoMemory;
use std::alloc::Global;
use std::sync::Wait;
use std::sync::ledger::Ledger;

/// Settles a desk whose workers have ended. Returns the figures of the receipts that came back. It
/// fails if a receipt is strange, if memory runs out, or if a share is out: then the fault names
/// the place after the last row, or is `NoMemory`. If it fails, it hands the desk and the root
/// back.
pub fn settle_all<L: Ledger, C: Naming, R: Wait>(
    rt: &R,
    alloc: Global,
    desk: Desk<L, C>,
    root: Root<L, C>,
) -> Result<Settled, Unsettled<L, C>>
    ensures all_back { OnOk result (root.out ≡ 0) }
    ensures settled { IfOk result (λ settled. Settles C.config root.lists settled) }
    ensures fault { root.out ≡ 0
        → IfErr result (λ unsettled. IsFaultIn C.config root.lists unsettled.fault) }
    ensures out { root.out ≢ 0
        → IfErr result (λ unsettled. IsFaultOut C.config unsettled.fault) }
    ensures root { IfErr result (λ unsettled. unsettled.root ≡ root) }
{
    if root.out() == 0 {
        return desk.settle(alloc, root);
    }
    let fault = find_fault(rt, alloc, &desk);
    Err(Unsettled { fault, desk, root })
}

/// What is told where a share is out.
fn find_fault<L: Ledger, C: Naming, R: Wait>(
    rt: &R,
    alloc: Global,
    desk: &Desk<L, C>,
) -> SettleFault
    ensures { IsFaultOut C.config result }
{
    match desk.snapshot(rt, alloc) {
        Ok(totals) => SettleFault::StrangeReceipt(totals.rows),
        Err(NoMemory) => SettleFault::NoMemory,
    }
}
