//! The root: it gives shares and takes them back.

ghost use Rattle.std.specs.Prelude.{◌≡◌, ◌+◌, ◌*◌, ◌^◌, ◌≤◌, [], ◌∷◌, ◌++◌, length, map, IfOk};
ghost use Rattle.std.specs.Prelude.{OnErr, OnOk};
ghost use Rattle.site_base.specs.declared.amounts.TheConstants.{GROWTH_LIMIT};
ghost use Rattle.site_base.specs.declared.amounts.TheConstants.{GREATEST_CENTS};
ghost use Rattle.written_site.specs.RowWords.{total};
ghost use Rattle.counter_desk.specs.Shares.{nobody_owed};
ghost use Rattle.counter_desk.specs.Roots.{calls_in};

use crate::naming::Naming;
use crate::receipt::Receipts;
use crate::share::Share;
use site_base::NoMemory;
use std::alloc::Global;
use std::marker::{Model, PhantomData};
use std::sync::ledger;
use std::sync::ledger::{Book, Ledger};

/// The root of the day's shares. It gives each share, and keeps the receipts of those that came
/// back.
#[derive(Drop)]
pub struct Root<L: Ledger, C: Naming> {
    alloc: Global,
    returned: Vec<Receipts>,
    out: u64,
    rest: ledger::Share<L>,
    of: PhantomData<C>,
}

impl<L: Ledger, C: Naming> Model for Root<L, C> {
    ghost use Rattle.std.specs.Prelude.{vec_len, vec_capacity};
    ghost use Rattle.counter_desk.specs.Roots.{RootFacts, IsRoot, lists_of};

    ghost Value = { RootFacts };

    ghost view = { λ r. record { out = r.out; lists = lists_of r.returned.items } };

    ghost invariant = { λ r. IsRoot L.parts r.rest.parts r.rest.amount r.out
        (lists_of r.returned.items) (vec_len r.returned) (vec_capacity r.returned) };
}

impl<L: Ledger, C: Naming> Root<L, C> {
    /// The root of a ledger that nobody has written into. It takes no memory.
    pub(crate) fn new(alloc: Global, rest: ledger::Share<L>) -> Self
        requires whole { (rest.parts ≡ L.parts) × (L.parts ≡ 2 ^ 63) }
        requires none { rest.amount ≡ 0 }
        ensures { result ≡ record { out = 0; lists = [] } }
    {
        Root {
            alloc,
            returned: Vec::new(alloc),
            out: 0,
            rest,
            of: PhantomData,
        }
    }

    /// Gives a share, which has no receipts and owes nobody. The memory for its return is reserved.
    pub fn give(&mut self) -> Result<Share<L, C>, NoMemory>
        ensures out { OnOk result (self.new.out ≡ self.old.out + 1) }
        ensures lists { self.new.lists ≡ self.old.lists }
        ensures receipts { IfOk result (λ share. share.receipts ≡ []) }
        ensures owed { IfOk result (λ share. share.owed ≡ nobody_owed) }
        ensures err { OnErr result (self.new ≡ self.old) }
    {
        self.returned.reserve(self.out as usize + 1)?;
        let mark = self.rest.split_off(1, 0);
        self.out += 1;
        Ok(Share::new(self.alloc, mark))
    }

    /// Takes a share back, with its receipts. It takes no memory.
    pub fn take_back(&mut self, share: Share<L, C>)
        ensures out { self.new.out + 1 ≡ self.old.out }
        ensures lists { self.new.lists ≡ self.old.lists ++ share.receipts ∷ [] }
    {
        let (receipts, mark) = share.into_parts();
        self.rest.merge(mark);
        self.returned.push_reserved(receipts);
        self.out -= 1;
    }

    /// Returns the number of shares that are out.
    pub fn out(&self) -> u64
        ensures { result ≡ self.now.out }
    {
        self.out
    }

    /// Where no share is out, there are as many receipts as the ledger counts calls.
    pub(crate) fn audit(&mut self, calls: &mut Book<L>)
        requires { self.old.out ≡ 0 }
        ensures same { self.new ≡ self.old }
        ensures total { calls.new.total ≡ calls.old.total }
        ensures counted { calls_in self.old.lists ≡ calls.old.total }
    {
        calls.audit(&mut self.rest);
    }

    /// The receipts of the shares that came back, in the order of their return.
    pub(crate) fn lists(&self) -> &[Receipts]
        ensures { map (λ l. l.receipts) result.now ≡ self.now.lists }
    {
        &self.returned
    }
}
