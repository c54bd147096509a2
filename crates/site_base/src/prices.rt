//! The present prices.

ghost use Rattle.std.specs.Prelude.{◌≡◌, true, false, is_some, IfOk};
ghost use Rattle.site_base.specs.Prices.{prices_of, are_in_range};
ghost use Rattle.site_base.specs.Table.{row_of, with_row};

use crate::amounts::Mills;
use crate::config::SiteConfig;
use crate::memory::NoMemory;
use crate::numbers::ProductNo;
use crate::table::place_of;
use std::alloc::Global;
use std::marker::Model;

/// The price of each product of a site, in mills per litre. Contracts see the list of the products'
/// numbers with their prices, in configured order.
#[derive(Drop)]
pub struct PriceBook {
    rows: Vec<(ProductNo, Mills)>,
}

impl Model for PriceBook {
    ghost use Rattle.std.specs.Prelude.{ℕ, List};

    ghost Value = { List (ℕ × ℕ) };

    ghost view = { λ b. b.rows.items };

    ghost use Rattle.std.specs.Prelude.{◌≡◌, true};
    ghost use Rattle.site_base.specs.Prices.{are_in_range};

    ghost invariant = { λ b. are_in_range b.rows.items ≡ true };
}

impl PriceBook {
    /// Returns each product of the configuration with its configured price.
    pub fn try_new(alloc: Global, config: &SiteConfig) -> Result<Self, NoMemory>
        ensures { IfOk result (λ book. book ≡ prices_of config.now.products) }
    {
        let mut rows = Vec::new(alloc);
        for product in config.products() {
            // The price's range is known where the number is read.
            let _mills = product.price.get();
            rows.push((product.number, product.price))?;
        }
        Ok(PriceBook { rows })
    }

    /// Returns the price of product q; None if there is no such product. Every price is in the
    /// range of a price.
    pub fn get(&self, q: ProductNo) -> Option<Mills>
        ensures price { result ≡ row_of q self.now }
        ensures range { are_in_range self.now ≡ true }
    {
        match place_of(&self.rows, q) {
            Some(place) => Some(self.rows[place].1),
            None => None,
        }
    }

    /// Returns each product with its price, in configured order.
    pub fn rows(&self) -> &[(ProductNo, Mills)]
        ensures { result.now ≡ self.now }
    {
        &self.rows
    }

    /// Gives product q this price. Every other price stays. Returns false, and changes nothing, if
    /// there is no such product.
    pub fn set(&mut self, q: ProductNo, price: Mills) -> bool
        ensures there { result ≡ is_some (row_of q self.old) }
        ensures prices { self.new ≡ with_row q price self.old }
        ensures absent { result ≡ false → self.new ≡ self.old }
    {
        let _mills = price.get();
        match place_of(&self.rows, q) {
            Some(place) => {
                self.rows[place].1 = price;
                true
            }
            None => false,
        }
    }
}
