//! Settlement: the shares that came back are compared with the history.

ghost use Rattle.std.specs.Prelude.{◌≡◌, length, IfErr, IfOk, OnOk};
ghost use Rattle.written_site.specs.SiteRun.{IsLegal};
ghost use Rattle.written_site.specs.SiteState.{opening};
ghost use Rattle.counter_desk.specs.Roots.{calls_in};
ghost use Rattle.counter_desk.specs.Settlement.{AddsUp, IsFaultIn, IsFaultOf, IsNoneStrange};
ghost use Rattle.counter_desk.specs.Settlement.{settle_fault_number, Settles};

use crate::desk::Desk;
use crate::laws::kept_histories_are_sound;
use crate::locked::Locked;
use crate::marks::{make_marks, mark_all, sum_amounts};
use crate::naming::Naming;
use crate::root::Root;
use site_base::Totals;
use std::alloc::Global;
use std::sync::Mutex;
use std::sync::ledger::Ledger;
use thiserror::Error;

/// The figures of a day that is settled.
#[derive(Drop)]
pub struct Settled {
    /// The number of rows in the history, and of calls that all shares made.
    pub rows: u64,
    /// The cents that were cleared, by the history and by all shares.
    pub cents: u64,
    /// The millilitres that were metered, by the history and by all shares.
    pub millilitres: u64,
    /// The number of shares that came back.
    pub shares: u64,
    /// The figures of the history.
    pub book: Totals,
}

/// Why a day isn't settled.
#[derive(Clone, Copy, Debug, PartialEq, Eq, Error)]
pub enum SettleFault {
    /// The receipt of this place isn't its row, or the place had a receipt before or isn't above
    /// the place before it in its share.
    #[error("a receipt of place {0} is strange")]
    StrangeReceipt(u64),
    /// An allocation failed.
    #[error("no memory")]
    NoMemory,
}

impl SettleFault {
    /// Returns its number: 60 or 31.
    pub fn number(self) -> u8
        ensures { result ≡ settle_fault_number self }
    {
        match self {
            SettleFault::StrangeReceipt(_) => 60,
            SettleFault::NoMemory => 31,
        }
    }
}

/// A day that isn't settled: its desk and its root as they were, and the reason.
#[derive(Drop)]
pub struct Unsettled<L: Ledger, C: Naming> {
    /// Why it isn't settled.
    pub fault: SettleFault,
    /// The desk.
    pub desk: Desk<L, C>,
    /// The root.
    pub root: Root<L, C>,
}

impl<L: Ledger, C: Naming> Desk<L, C> {
    /// Compares the receipts of all shares with the history, once every share came back. If it
    /// returns the figures, the shares add up to the history: each row has one receipt in one
    /// share, and each share's calls are in the history in the order in which the share made them.
    /// It fails if a receipt is strange, or an allocation fails; then nothing has changed.
    ///
    /// The rows are under the desk's lock, of which only their type is known here. So `fault`
    /// speaks of a legal history of this configuration with as many rows as the shares made calls,
    /// and can't say that it is the desk's own. Under the lock it is: `Locked::settle` compares its
    /// own rows.
    pub fn settle(self, alloc: Global, root: Root<L, C>) -> Result<Settled, Unsettled<L, C>>
        requires { root.out ≡ 0 }
        ensures ok { IfOk result (λ settled. Settles C.config root.lists settled) }
        ensures fault { IfErr result (λ unsettled. IsFaultIn C.config root.lists unsettled.fault) }
        ensures root { IfErr result (λ unsettled. unsettled.root ≡ root) }
    {
        let Desk { site } = self;
        let mut locked = site.into_inner();
        let mut root = root;
        match locked.settle(alloc, &mut root) {
            Ok(settled) => Ok(settled),
            Err(fault) => Err(Unsettled {
                fault,
                desk: Desk {
                    site: Mutex::new(locked),
                },
                root,
            }),
        }
    }
}

impl<L: Ledger, C: Naming> Locked<L, C> {
    /// The figures of the day, where no share is out and no receipt is strange. Where one is, it is
    /// told by its place, or an allocation failed before that was seen. Neither the rows nor the
    /// root are changed.
    fn settle(&mut self, alloc: Global, root: &mut Root<L, C>) -> Result<Settled, SettleFault>
        requires { root.old.out ≡ 0 }
        ensures ok { IfOk result (λ settled. AddsUp C.config self.old root.old.lists settled) }
        ensures fault { IfErr result (λ fault. IsFaultOf self.old root.old.lists fault) }
        ensures none { OnOk result (IsNoneStrange self.old root.old.lists) }
        ensures counted { calls_in root.old.lists ≡ length self.old }
        ensures legal { IsLegal (opening C.config) self.old }
        ensures rows { self.new ≡ self.old }
        ensures root { root.new ≡ root.old }
    {
        self.audit(root);
        add_up(alloc, self, root)
    }
}

/// Adds up the figures of the day, where no receipt is strange.
fn add_up<L: Ledger, C: Naming>(
    alloc: Global,
    site: &Locked<L, C>,
    root: &Root<L, C>,
) -> Result<Settled, SettleFault>
    requires { calls_in root.now.lists ≡ length site.now }
    ensures ok { IfOk result (λ settled. AddsUp C.config site.now root.now.lists settled) }
    ensures none { OnOk result (IsNoneStrange site.now root.now.lists) }
    ensures err { IfErr result (λ fault. IsFaultOf site.now root.now.lists fault) }
    ensures legal { IsLegal (opening C.config) site.now }
{
    let rows = site.len();
    let lists = root.lists();
    let mut marks = match make_marks(alloc, rows as usize) {
        Ok(marks) => marks,
        Err(_) => return Err(SettleFault::NoMemory),
    };
    match mark_all(site, &mut marks, lists) {
        Ok(()) => {}
        Err(place) => return Err(SettleFault::StrangeReceipt(place)),
    }
    let book = match site.totals(alloc) {
        Ok(book) => book,
        Err(_) => return Err(SettleFault::NoMemory),
    };
    kept_histories_are_sound();
    let (cents, millilitres) = sum_amounts(lists);
    Ok(Settled {
        rows,
        cents,
        millilitres,
        shares: lists.len() as u64,
        book,
    })
}
