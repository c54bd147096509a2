//! The desk: one site for several workers.

ghost use Rattle.std.specs.Prelude.{◌≡◌, ◌-◌, ◌^◌, ◌≤◌, [], ◌∷◌, ◌++◌, false, true, length};
ghost use Rattle.std.specs.Prelude.{slice_set, Ok, IfOk, IfSome, IsErrOf, OnErr, IfNone};
ghost use Rattle.site_base.specs.declared.limits.TheConstants.{TILL_CELLS};
ghost use Rattle.counter_desk.specs.KeptHistories.{AreFiguresInLegal, IsFullInLegal};
ghost use Rattle.counter_desk.specs.KeptHistories.{IsShownInLegal};
ghost use Rattle.counter_desk.specs.Receipts.{receipt_of, StandsInLegal};
ghost use Rattle.counter_desk.specs.Shares.{owed_after, owes, IsAsBefore};

use crate::locked::Locked;
use crate::naming::Naming;
use crate::root::Root;
use crate::share::Share;
use site_base::{
    Actor, Answer, Event, FpNo, NoMemory, NoRow, Placed, PointView, SiteConfig, TillNo, Totals,
};
use site_book::SiteBook;
use std::alloc::Global;
use std::sync::ledger::{Blank, Ledger};
use std::sync::{Mutex, Wait};

/// One site, shared by several workers. Its book is under one lock, and each call takes the lock
/// once. Each worker has a share, which the desk's root gave it.
#[derive(Drop)]
pub struct Desk<L: Ledger, C: Naming> {
    pub(crate) site: Mutex<Locked<L, C>>,
}

impl<L: Ledger, C: Naming> Desk<L, C> {
    /// Opens the desk of the opening site of this configuration, and its root, which has given no
    /// share. `blank` is the ledger of calls, cut into 2^63 parts, so that there is one for each
    /// share.
    pub fn try_open(
        alloc: Global,
        blank: Blank,
        config: &SiteConfig,
    ) -> Result<(Desk<L, C>, Root<L, C>), NoMemory>
        requires ledger { (blank.name ≡ L.name) × (blank.parts ≡ L.parts) × (blank.parts ≡ 2 ^ 63) }
        requires config { config.now ≡ C.config }
        ensures root { IfOk result (λ opened. opened.1 ≡ record { out = 0; lists = [] }) }
    {
        let book = SiteBook::try_open(alloc, config)?;
        let (calls, rest) = blank.open::<L>();
        let desk = Desk {
            site: Mutex::new(Locked::new(book, calls)),
        };
        Ok((desk, Root::new(alloc, rest)))
    }

    /// Submits one event of one actor. It makes one row, and in the share one receipt, which is
    /// that row: of a legal history of the desk's configuration. `BookFull` comes if the book has
    /// as many rows as the configuration allows, `NoMemory` if an allocation fails; then there is
    /// no row, and the share is as before. After an accepted SignOn the share owes the till a
    /// sign-off; an accepted SignOff ends that.
    #[tactic(auto, using(crate::proofs::OwedTills::cells_after))]
    pub fn submit<R: Wait>(
        &self,
        rt: &R,
        share: &mut Share<L, C>,
        actor: Actor,
        event: Event,
    ) -> Result<Placed, NoRow>
        ensures receipt { IfOk result (λ placed.
            share.new.receipts ≡ share.old.receipts ++ receipt_of placed actor event ∷ []) }
        ensures stands { IfOk result (λ placed.
            StandsInLegal C.config (receipt_of placed actor event)) }
        ensures owed { IfOk result (λ placed.
            share.new.owed ≡ owed_after actor event placed.reply share.old.owed) }
        ensures cells { length share.new.owed ≡ TILL_CELLS }
        ensures full { IsErrOf result NoRow.BookFull → IsFullInLegal C.config }
        ensures err { OnErr result (IsAsBefore share.old share.new) }
    {
        // What can fail for memory here comes before the lock is taken.
        share.reserve(&event)?;
        self.site.lock(rt).submit(share, &actor, &event)
    }

    /// Signs off a till to which the share owes it, on a full book too. It takes no memory. Returns
    /// None, without a row, if the till was signed off through another share. The share then owes
    /// the till nothing.
    pub fn leave<R: Wait>(&self, rt: &R, share: &mut Share<L, C>, t: TillNo) -> Option<Placed>
        requires { owes share.old t ≡ true }
        ensures reply { IfSome result (λ placed. placed.reply ≡ Ok Answer.Done) }
        ensures receipt { IfSome result (λ placed. share.new.receipts
            ≡ share.old.receipts ++ receipt_of placed (Actor.Till t) Event.SignOff ∷ []) }
        ensures stands { IfSome result (λ placed.
            StandsInLegal C.config (receipt_of placed (Actor.Till t) Event.SignOff)) }
        ensures none { IfNone result (share.new.receipts ≡ share.old.receipts) }
        ensures owed { share.new.owed ≡ slice_set share.old.owed (t - 1) false }
    {
        self.site.lock(rt).leave(share, t)
    }

    /// Returns the point as a read shows it, in a legal history of the desk's configuration; None
    /// if the site has no such point. It makes no row.
    pub fn point<R: Wait>(&self, rt: &R, p: FpNo) -> Option<PointView>
        ensures { IsShownInLegal C.config p result }
    {
        self.site.lock(rt).point(p)
    }

    /// Returns the figures of the rows so far: of a legal history of the desk's configuration, with
    /// one member for each of its products. It makes no row.
    pub fn snapshot<R: Wait>(&self, rt: &R, alloc: Global) -> Result<Totals, NoMemory>
        ensures figures { IfOk result (λ totals. AreFiguresInLegal C.config totals) }
        ensures products { IfOk result (λ totals.
            length totals.products ≡ length C.config.products) }
    {
        self.site.lock(rt).totals(alloc)
    }
}
