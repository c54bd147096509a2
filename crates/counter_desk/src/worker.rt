//! A worker: it makes the calls of a list through one share.

ghost use Rattle.std.specs.Prelude.{◌≡◌, ◌≤◌, ℕ, [], ◌∷◌, false, take, IfErr, IfOk, IfSome, OnErr};
ghost use Rattle.site_base.specs.declared.limits.TheConstants.{TILLS};
ghost use Rattle.site_base.specs.Refusals.{no_row_number};
ghost use Rattle.counter_desk.specs.Shares.{owes};
ghost use Rattle.counter_desk.specs.Work.{AreSignOffs, AreSubmitted, IsCause, IsStopped};
ghost use Rattle.counter_desk.specs.Work.{IsWorkersEnd, OwesNobody, Works, work_fault_number};

use crate::desk::Desk;
use crate::gate::Gate;
use crate::naming::Naming;
use crate::share::Share;
use site_base::{Actor, Event, NoRow, TILL_CELLS, TillNo};
use std::sync::Wait;
use std::sync::ledger::Ledger;
use thiserror::Error;

/// Why a worker ended before its list did.
#[derive(Clone, Copy, Debug, PartialEq, Eq, Error)]
pub enum WorkFault {
    /// The book has as many rows as the configuration allows.
    #[error("the book is full")]
    BookFull,
    /// An allocation failed.
    #[error("no memory")]
    NoMemory,
    /// The worker couldn't be started. It was given no share.
    #[error("the worker wasn't started")]
    NoWorker,
}

impl WorkFault {
    /// Why a call made no row. Its number is the same.
    fn of(no_row: NoRow) -> Self
        ensures { work_fault_number result ≡ no_row_number no_row }
    {
        match no_row {
            NoRow::BookFull => WorkFault::BookFull,
            NoRow::NoMemory => WorkFault::NoMemory,
        }
    }

    /// Returns its number: 30, 31 or 64.
    pub fn number(self) -> u8
        ensures { result ≡ work_fault_number self }
    {
        match self {
            WorkFault::BookFull => 30,
            WorkFault::NoMemory => 31,
            WorkFault::NoWorker => 64,
        }
    }
}

/// How a list of calls ended.
#[derive(Clone, Copy, Debug, PartialEq, Eq)]
pub struct ListEnd {
    /// The number of its calls that made a row, from the first on.
    pub placed: u64,
    /// The number of these rows that were accepted.
    pub accepted: u64,
    /// Why it ended before the list did; None if it didn't.
    pub fault: Option<WorkFault>,
}

/// Makes the calls of the list, in order, each between the gate's two calls, and stops at the first
/// that makes no row. Then it signs off each till to which the share owes that.
pub fn work<L: Ledger, C: Naming, G: Gate, R: Wait>(
    rt: &R,
    desk: &Desk<L, C>,
    share: &mut Share<L, C>,
    gate: &G,
    calls: &[(Actor, Event)],
) -> ListEnd
    ensures works { Works C.config calls.now share.old.receipts share.new.receipts result }
    ensures owed { OwesNobody share.new }
{
    let end = submit_all(rt, desk, share, gate, calls);
    leave_all(rt, desk, share);
    end
}

/// Makes the calls of the list.
fn submit_all<L: Ledger, C: Naming, G: Gate, R: Wait>(
    rt: &R,
    desk: &Desk<L, C>,
    share: &mut Share<L, C>,
    gate: &G,
    calls: &[(Actor, Event)],
) -> ListEnd
    ensures submitted { AreSubmitted (take result.placed calls.now)
        share.old.receipts share.new.receipts result.accepted }
    ensures ended { IsWorkersEnd calls.now result }
    ensures stopped { IfSome result.fault (λ fault. IsStopped C.config calls.now result fault) }
{
    let mut placed = 0;
    let mut accepted = 0;
    for call in calls {
        let (actor, event) = call;
        match submit_one(rt, desk, share, gate, actor, event) {
            Ok(one) => accepted += one,
            Err(fault) => {
                return ListEnd {
                    placed,
                    accepted,
                    fault: Some(fault),
                };
            }
        }
        placed += 1;
    }
    ListEnd {
        placed,
        accepted,
        fault: None,
    }
}

/// Makes one call between the gate's two, and says whether it was accepted: 1 or 0.
fn submit_one<L: Ledger, C: Naming, G: Gate, R: Wait>(
    rt: &R,
    desk: &Desk<L, C>,
    share: &mut Share<L, C>,
    gate: &G,
    actor: &Actor,
    event: &Event,
) -> Result<u64, WorkFault>
    ensures submitted { IfOk result (λ one.
        AreSubmitted ((actor.now, event.now) ∷ []) share.old.receipts share.new.receipts one) }
    ensures one { IfOk result (λ one. one ≤ 1) }
    ensures err { OnErr result (share.new.receipts ≡ share.old.receipts) }
    ensures cause { IfErr result (λ fault. IsCause C.config fault) }
{
    gate.before_lock(*actor);
    let placed = &desk.submit(rt, share, *actor, *event);
    gate.after_reply(*actor);
    match placed {
        Ok(placed) => Ok(u64::from(placed.reply.is_ok())),
        Err(no_row) => Err(WorkFault::of(*no_row)),
    }
}

/// Signs off each till that the share owes.
fn leave_all<L: Ledger, C: Naming, R: Wait>(rt: &R, desk: &Desk<L, C>, share: &mut Share<L, C>)
    ensures left { AreSignOffs share.old.receipts share.new.receipts }
    ensures owed { OwesNobody share.new }
{
    for cell in 0..TILL_CELLS {
        leave_one(rt, desk, share, TillNo::of_cell(cell));
    }
}

/// Signs off the till, where the share owes it.
fn leave_one<L: Ledger, C: Naming, R: Wait>(
    rt: &R,
    desk: &Desk<L, C>,
    share: &mut Share<L, C>,
    t: TillNo,
)
    ensures left { AreSignOffs share.old.receipts share.new.receipts }
    ensures gone { owes share.new t ≡ false }
    ensures others { (u : ℕ) → owes share.old u ≡ false → owes share.new u ≡ false }
{
    if share.owes(t) {
        let _ = desk.leave(rt, share, t);
    }
}
