//! One sale.

ghost use Rattle.std.specs.Prelude.{◌≡◌, ◌≤◌, None, Some, IfErr, OnOk};
ghost use Rattle.site_base.specs.declared.limits.TheConstants.{PRODUCTS};
ghost use Rattle.transaction_buffer.specs.Sales.{is_unpaid, new_sale, status_of, view_of};
ghost use Rattle.transaction_buffer.specs.TransactionTable.{answer_in, unlock_all_of, line_for};
ghost use Rattle.transaction_buffer.specs.TransactionTable.{locker, refusal_in, sale_after_request};
ghost use Rattle.transaction_buffer.specs.Clears.{is_cleared_by, is_cleared_in};
ghost use Rattle.transaction_buffer.specs.Sums.{has_status, product_cents, volume_in};
ghost use Rattle.transaction_buffer.specs.Sums.{volume_locked_by};

use crate::request::Request;
use crate::standing::Standing;
use site_base::{
    Answer, Cents, Millilitres, Mills, ProductNo, Refusal, ShiftNo, Status, TillNo, TransactionView,
};
use std::marker::Model;
use std::mem::size_of;

// A site that sells for years keeps every sale.
const _: () = prove!(size_of::<Sale>() <= 48);

/// A sale, and its present state.
#[derive(Clone, Copy, Drop)]
pub struct Sale {
    /// The shift in which it was sold.
    pub shift: ShiftNo,
    /// The price at which it was sold.
    pub price: Mills,
    /// The millilitres that flowed.
    pub volume: Millilitres,
    /// The amount due.
    pub cents: Cents,
    /// The prepaid cents, if it was prepaid.
    pub prepaid: Option<u32>,
    /// Its product.
    pub product: ProductNo,
    /// Its present state.
    pub standing: Standing,
}

impl Model for Sale {
    ghost use Rattle.transaction_buffer.specs.Sales.{Sale as SaleFacts};

    ghost Value = { SaleFacts };

    ghost view = { λ x. record {
      shift = x.shift;
      price = x.price;
      volume = x.volume;
      cents = x.cents;
      prepaid = x.prepaid;
      product = x.product;
      standing = x.standing;
    } };

    ghost inverse = { λ x. record {
      shift = x.shift;
      price = x.price;
      volume = x.volume;
      cents = x.cents;
      prepaid = x.prepaid;
      product = x.product;
      standing = x.standing;
    } };
}

impl Sale {
    /// Returns the sale that a view shows, in this shift: payable if the view names no till,
    /// otherwise locked by that till.
    pub fn new(shift: ShiftNo, view: &TransactionView) -> Self
        ensures value { result ≡ new_sale shift view.now }
        ensures range { (1 ≤ view.now.product) × (view.now.product ≤ PRODUCTS) }
    {
        let _ = view.product.get();
        let standing = match view.till {
            None => Standing::Payable,
            Some(till) => Standing::LockedBy(till),
        };
        Sale {
            shift,
            price: view.price,
            volume: view.volume,
            cents: view.cents,
            prepaid: view.prepaid,
            product: view.product,
            standing,
        }
    }

    /// Returns the sale as a read shows it.
    pub fn view(&self) -> TransactionView
        ensures { result ≡ view_of self.now }
    {
        let (status, till) = match self.standing {
            Standing::Payable => (Status::Payable, None),
            Standing::LockedBy(till) => (Status::Locked, Some(till)),
            Standing::ClearedBy(till, _) => (Status::Cleared, Some(till)),
        };
        TransactionView {
            price: self.price,
            volume: self.volume,
            cents: self.cents,
            prepaid: self.prepaid,
            status,
            till,
            product: self.product,
        }
    }

    /// Is it payable or locked?
    pub fn is_unpaid(&self) -> bool
        ensures { result ≡ is_unpaid self.now.standing }
    {
        match self.standing {
            Standing::Payable => true,
            Standing::LockedBy(_) => true,
            Standing::ClearedBy(_, _) => false,
        }
    }

    /// Returns the shift in which it was sold.
    pub fn shift(&self) -> ShiftNo
        ensures { result ≡ self.now.shift }
    {
        self.shift
    }

    /// Returns its millilitres if it is of this product, otherwise 0.
    pub fn volume_in(&self, q: ProductNo) -> u64
        ensures { result ≡ volume_in q self.now }
    {
        if self.product.get() == q.get() {
            self.volume.get()
        } else {
            0
        }
    }

    /// Returns its cents if it is of this product, otherwise 0.
    pub fn product_cents(&self, q: ProductNo) -> u64
        ensures { result ≡ product_cents q self.now }
    {
        if self.product.get() == q.get() {
            self.cents.get()
        } else {
            0
        }
    }

    /// Does it have this status?
    pub fn has_status(&self, status: Status) -> bool
        ensures { result ≡ has_status status self.now.standing }
    {
        match (status, self.standing) {
            (Status::Payable, Standing::Payable) => true,
            (Status::Locked, Standing::LockedBy(_)) => true,
            (Status::Cleared, Standing::ClearedBy(_, _)) => true,
            _ => false,
        }
    }

    /// Has this till cleared it?
    pub fn is_cleared_by(&self, t: TillNo) -> bool
        ensures { result ≡ is_cleared_by t self.now.standing }
    {
        match self.standing {
            Standing::ClearedBy(till, _) => till.get() == t.get(),
            _ => false,
        }
    }

    /// Was it cleared in this shift?
    pub fn is_cleared_in(&self, h: ShiftNo) -> bool
        ensures { result ≡ is_cleared_in h self.now.standing }
    {
        match self.standing {
            Standing::ClearedBy(_, shift) => shift.get() == h.get(),
            _ => false,
        }
    }

    /// Returns the till that has locked it.
    pub fn locker(&self) -> Option<TillNo>
        ensures { result ≡ locker self.now.standing }
    {
        match self.standing {
            Standing::LockedBy(till) => Some(till),
            _ => None,
        }
    }

    /// Returns whether it is payable, locked or cleared.
    pub fn status(&self) -> Status
        ensures { result ≡ status_of self.now.standing }
    {
        match self.standing {
            Standing::Payable => Status::Payable,
            Standing::LockedBy(_) => Status::Locked,
            Standing::ClearedBy(_, _) => Status::Cleared,
        }
    }

    /// Returns its millilitres if this till has locked it, otherwise 0.
    pub fn volume_locked(&self, t: TillNo) -> u64
        ensures { result ≡ volume_locked_by self.now.product t self.now }
    {
        match self.standing {
            Standing::LockedBy(u) if u.get() == t.get() => self.volume.get(),
            _ => 0,
        }
    }

    /// Returns why the transaction table would refuse the till's request, if it would.
    pub fn judge(&self, request: &Request, t: TillNo) -> Result<(), Refusal>
        ensures accepted { OnOk result (refusal_in (line_for request.now t self.now) ≡ None) }
        ensures refused { IfErr result (λ refusal.
            refusal_in (line_for request.now t self.now) ≡ Some refusal) }
    {
        match self.standing {
            Standing::Payable => match request {
                Request::Lock => Ok(()),
                _ => Err(Refusal::NotLocked),
            },
            Standing::LockedBy(u) if u.get() == t.get() => Ok(()),
            Standing::LockedBy(u) => Err(Refusal::LockedByOther(u)),
            Standing::ClearedBy(u, _) => Err(Refusal::AlreadyCleared(u)),
        }
    }

    /// Returns the sale after a request that `judge` accepts, and the answer.
    pub fn grant(&self, request: &Request, t: TillNo) -> (Sale, Answer)
        requires { refusal_in (line_for request.now t self.now) ≡ None }
        ensures sale { result.0 ≡ sale_after_request request.now t self.now }
        ensures answer { result.1 ≡ answer_in (line_for request.now t self.now) }
        ensures range { (1 ≤ self.now.product) × (self.now.product ≤ PRODUCTS) }
    {
        let _ = self.product.get();
        let (standing, answer) = match request {
            Request::Lock => (Standing::LockedBy(t), Answer::Locked),
            Request::Unlock => (Standing::Payable, Answer::Unlocked),
            Request::Clear(shift) => (Standing::ClearedBy(t, *shift), Answer::Cleared(self.cents)),
        };
        (Sale { standing, ..*self }, answer)
    }

    /// Returns the sale after the sign-off of a till: payable if this till has locked it.
    pub fn unlock_all_of(&self, t: TillNo) -> Sale
        ensures { result ≡ unlock_all_of t self.now }
    {
        match self.standing {
            Standing::LockedBy(u) if u.get() == t.get() => Sale {
                standing: Standing::Payable,
                ..*self
            },
            _ => *self,
        }
    }
}
