//! A share of the day's work.

ghost use Rattle.std.specs.Prelude.{◌≡◌, ◌+◌, ◌-◌, ◌<◌, ◌≤◌, [], ◌∷◌, ◌++◌, length, false};
ghost use Rattle.std.specs.Prelude.{slice_set, OnOk};
ghost use Rattle.site_base.specs.declared.config.TheConstants.{GREATEST_ROWS};
ghost use Rattle.site_base.specs.declared.amounts.TheConstants.{GROWTH_LIMIT};
ghost use Rattle.site_base.specs.declared.limits.TheConstants.{TILL_CELLS, TILLS};
ghost use Rattle.site_base.specs.Events.{growth_in_reply};
ghost use Rattle.counter_desk.specs.Receipts.{cents_receipted, growth_receipted, receipt_at};
ghost use Rattle.counter_desk.specs.Shares.{owes, nobody_owed, owed_after, tills_owed};
ghost use Rattle.counter_desk.specs.Shares.{receipts_asked, IsAsBefore};

use crate::debts::Owed;
use crate::naming::Naming;
use crate::receipt::Receipts;
use site_base::{Event, NoMemory, Row, TillNo, sign_change};
use std::alloc::Global;
use std::marker::{Model, PhantomData};
use std::sync::ledger;
use std::sync::ledger::{Book, Ledger};

/// A share of the day's work: a receipt for each call that was made through it, in the order of the
/// calls. It can't be dropped: the root that gave it takes it back. It owes a sign-off to each till
/// that signed on through it and didn't sign off, and has room for that.
#[must_use]
pub struct Share<L: Ledger, C: Naming> {
    receipts: Receipts,
    owed: Owed,
    mark: ledger::Share<L>,
    of: PhantomData<C>,
}

impl<L: Ledger, C: Naming> Model for Share<L, C> {
    ghost use Rattle.std.specs.Prelude.{◌-◌};
    ghost use Rattle.counter_desk.specs.Shares.{ShareFacts, IsShare, tills_owed};

    ghost Value = { ShareFacts };

    ghost view = { λ s. record {
      receipts = s.receipts.receipts;
      owed = s.owed;
      room = s.receipts.room - tills_owed s.owed;
    } };

    ghost invariant = { λ s. IsShare s.mark.parts s.mark.amount s.receipts.receipts s.owed
        s.receipts.room };
}

impl<L: Ledger, C: Naming> Share<L, C> {
    /// A share without receipts, which owes nobody. It takes no memory.
    pub(crate) fn new(alloc: Global, mark: ledger::Share<L>) -> Self
        requires part { mark.parts ≡ 1 }
        requires none { mark.amount ≡ 0 }
        ensures receipts { result.receipts ≡ [] }
        ensures owed { result.owed ≡ nobody_owed }
    {
        Share {
            receipts: Receipts::new(alloc),
            owed: Owed::new(),
            mark,
            of: PhantomData,
        }
    }

    /// Returns the number of calls that were made through it.
    pub fn calls(&self) -> u64
        ensures { result ≡ length self.now.receipts }
    {
        self.receipts.len() as u64
    }

    /// Returns the cents that its calls cleared.
    pub fn cents(&self) -> u64
        ensures { result ≡ cents_receipted self.now.receipts }
    {
        self.receipts.cents()
    }

    /// Returns the millilitres in its calls' reports that were accepted.
    pub fn millilitres(&self) -> u64
        ensures { result ≡ growth_receipted self.now.receipts }
    {
        self.receipts.millilitres()
    }

    /// Has the till signed on through it, and not signed off through it since?
    pub fn owes(&self, t: TillNo) -> bool
        ensures value { result ≡ owes self.now t }
        ensures cells { length self.now.owed ≡ TILL_CELLS }
    {
        self.owed.owes(t)
    }

    /// Makes room for the receipts of a call with this event: its own, and that of the sign-off
    /// that a SignOn will owe.
    pub(crate) fn reserve(&mut self, event: &Event) -> Result<(), NoMemory>
        ensures same { IsAsBefore self.old self.new }
        ensures cells { length self.new.owed ≡ TILL_CELLS }
        ensures room { OnOk result (receipts_asked event.now ≤ self.new.room) }
    {
        let asked = match event {
            Event::SignOn => 2,
            _ => 1,
        };
        self.receipts.reserve(self.owed.count() + asked)
    }

    /// A call was made: the receipt of its row is kept, and the ledger of calls counts it.
    pub(crate) fn note(&mut self, calls: &mut Book<L>, place: u64, row: &Row)
        requires room { tills_owed (owed_after row.now.actor row.now.event row.now.reply
            self.old.owed)
            < self.old.room + tills_owed self.old.owed }
        requires few { calls.old.total ≤ GREATEST_ROWS + TILLS }
        requires growth { growth_in_reply row.now.reply ≤ GROWTH_LIMIT }
        ensures receipts { self.new.receipts ≡ self.old.receipts ++ receipt_at place row.now ∷ [] }
        ensures owed { self.new.owed
            ≡ owed_after row.now.actor row.now.event row.now.reply self.old.owed }
        ensures total { calls.new.total ≡ calls.old.total + 1 }
    {
        // The ledger says that there are no more receipts here than rows.
        calls.audit(&mut self.mark);
        calls.add(&mut self.mark, 1);
        self.receipts.push(place, row);
        self.owed
            .note(&sign_change(&row.actor, &row.event, &row.reply));
    }

    /// The till is owed nothing any more.
    pub(crate) fn forgive(&mut self, t: TillNo)
        ensures receipts { self.new.receipts ≡ self.old.receipts }
        ensures owed { self.new.owed ≡ slice_set self.old.owed (t - 1) false }
    {
        self.owed.set(t, false);
    }

    /// Its receipts, and its part of the ledger. The share is spent.
    pub(crate) fn into_parts(self) -> (Receipts, ledger::Share<L>)
        ensures receipts { result.0.receipts ≡ self.receipts }
        ensures part { result.1.parts ≡ 1 }
        ensures counted { result.1.amount ≡ length self.receipts }
    {
        let Share {
            receipts,
            owed: _,
            mark,
            of: _,
        } = self;
        (receipts, mark)
    }
}
