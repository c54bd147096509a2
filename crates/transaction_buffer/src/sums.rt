//! The volumes of the sales, by product and status.

ghost use Rattle.std.specs.Prelude.{◌≡◌, ℕ, ◌+◌, ◌-◌, ◌^◌, ◌<◌, ◌≤◌, slice_index, slice_set};
ghost use Rattle.site_base.specs.declared.limits.TheConstants.{PRODUCT_CELLS};
ghost use Rattle.site_base.specs.declared.state.Status.{Status};
ghost use Rattle.transaction_buffer.specs.Sales.{status_of};

use crate::sale::Sale;
use site_base::{PRODUCT_CELLS, ProductNo, Status, TillNo};

/// The millilitres of the sales, for each product and status. Those of product q are in cell q - 1.
#[derive(Clone, Copy, Debug, Drop)]
pub struct Sums {
    /// Those of the payable sales.
    pub payable: [u64; PRODUCT_CELLS],
    /// Those of the locked sales.
    pub locked: [u64; PRODUCT_CELLS],
    /// Those of the cleared sales.
    pub cleared: [u64; PRODUCT_CELLS],
}

impl Sums {
    ghost use Rattle.transaction_buffer.specs.KeptSums.{kept_sum, AreMoved, AreWith, AreWithout};
    ghost use Rattle.transaction_buffer.specs.KeptSums.{CanMove};
    ghost use Rattle.transaction_buffer.specs.Sums.{volume_locked_by};

    /// Returns sums without any volume.
    pub fn new() -> Self
        ensures { (q : ℕ) (status : Status) → kept_sum q status result ≡ 0 }
    {
        Sums {
            payable: [0; PRODUCT_CELLS],
            locked: [0; PRODUCT_CELLS],
            cleared: [0; PRODUCT_CELLS],
        }
    }

    /// Returns the sum for this product and status.
    pub fn get(&self, q: ProductNo, status: Status) -> u64
        ensures { result ≡ kept_sum q status self.now }
    {
        match status {
            Status::Payable => self.payable[q.cell()],
            Status::Locked => self.locked[q.cell()],
            Status::Cleared => self.cleared[q.cell()],
        }
    }

    /// Adds this sale's volume. The sum fits in 64 bits.
    pub fn add(&mut self, sale: &Sale)
        requires { kept_sum sale.now.product (status_of sale.now.standing) self.old
            + sale.now.volume < 2 ^ 64 }
        ensures { AreWith sale.now self.old self.new }
    {
        let cell = sale.product.cell();
        let volume = sale.volume.get();
        match sale.status() {
            Status::Payable => self.payable[cell] += volume,
            Status::Locked => self.locked[cell] += volume,
            Status::Cleared => self.cleared[cell] += volume,
        }
    }

    /// Subtracts this sale's volume, which is in the sums.
    pub fn remove(&mut self, sale: &Sale)
        requires { sale.now.volume
            ≤ kept_sum sale.now.product (status_of sale.now.standing) self.old }
        ensures { AreWithout sale.now self.old self.new }
    {
        let cell = sale.product.cell();
        let volume = sale.volume.get();
        match sale.status() {
            Status::Payable => self.payable[cell] -= volume,
            Status::Locked => self.locked[cell] -= volume,
            Status::Cleared => self.cleared[cell] -= volume,
        }
    }

    /// Moves this sale's volume from the locked sums to the payable ones, if this till has locked
    /// it.
    pub fn unlock_all_of(&mut self, sale: &Sale, t: TillNo)
        requires { CanMove (λ q. volume_locked_by q t sale.now) self.old }
        ensures { AreMoved (λ q. volume_locked_by q t sale.now) self.old self.new }
    {
        let cell = sale.product.cell();
        let volume = sale.volume_locked(t);
        self.payable[cell] += volume;
        self.locked[cell] -= volume;
    }
}
