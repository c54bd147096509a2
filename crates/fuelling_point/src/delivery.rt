//! What a fuelling in progress keeps.

ghost use Rattle.std.specs.Prelude.{◌≡◌, ◌+◌, ◌≤◌};
ghost use Rattle.site_base.specs.declared.amounts.TheConstants.{GREATEST_READING};

use site_base::{Millilitres, Mills};

/// What a fuelling took when it started and what has flowed since.
#[derive(Clone, Copy, Debug)]
pub struct Delivery {
    /// The price that it is sold at.
    pub price: Mills,
    /// The nozzle's reading at the start.
    pub start: Millilitres,
    /// The millilitres that have flowed since the start.
    pub volume: u64,
}

impl Delivery {
    /// Returns a delivery that starts at this reading and price.
    pub fn new(start: Millilitres, price: Mills) -> Self
        ensures { result ≡ record { price = price; start = start; volume = 0 } }
    {
        Delivery {
            price,
            start,
            volume: 0,
        }
    }

    /// Returns the delivery after this much more has flowed.
    pub fn after(self, growth: u64) -> Self
        requires fits { self.volume + growth ≤ GREATEST_READING }
        ensures { result ≡ record self { volume = self.volume + growth } }
    {
        Delivery {
            volume: self.volume + growth,
            ..self
        }
    }
}
