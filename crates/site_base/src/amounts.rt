//! Volumes, prices and amounts of money.

ghost use Rattle.std.specs.Prelude.{◌≡◌, ◌≤◌, ◌↔◌, IsSome, IfSome};
ghost use Rattle.site_base.specs.Amounts.{amount, IsGreatestVolume};

use std::marker::Model;

/// The greatest meter reading, in millilitres.
pub const GREATEST_READING: u64 = 999_999_999_999;

/// The greatest price, in mills per litre.
pub const GREATEST_PRICE: u32 = 99_999;

/// The greatest single amount, in cents. The greatest volume at the greatest price,
/// 9,999,899,999,990 cents, is below it.
pub const GREATEST_CENTS: u64 = 9_999_900_000_000;

/// The greatest growth of a meter in one report, in millilitres.
pub const GROWTH_LIMIT: u64 = 1_000_000;

/// A meter reading, or the volume of one fuelling, in millilitres: from 0 to `GREATEST_READING`.
#[derive(Clone, Copy, Debug, PartialEq, Eq)]
pub struct Millilitres {
    volume: u64,
}

impl Model for Millilitres {
    ghost use Rattle.std.specs.Prelude.{ℕ, ◌≤◌};
    ghost use Rattle.site_base.specs.declared.amounts.TheConstants.{GREATEST_READING};

    ghost Value = { ℕ };

    ghost view = { λ n. n.volume };

    ghost invariant = { λ n. n.volume ≤ GREATEST_READING };

    ghost inverse = { λ n. record { volume = n } };
}

impl Millilitres {
    /// Returns this many millilitres, if that is in range.
    pub fn new(volume: u64) -> Option<Self>
        ensures valid { IsSome result ↔ (volume ≤ GREATEST_READING) }
        ensures value { IfSome result (λ n. n ≡ volume) }
    {
        if volume <= GREATEST_READING {
            Some(Millilitres { volume })
        } else {
            None
        }
    }

    /// Returns the millilitres.
    pub fn get(self) -> u64
        ensures value { result ≡ self }
        ensures range { result ≤ GREATEST_READING }
    {
        self.volume
    }
}

/// A price in mills (thousandths of the currency unit) per litre, from 1 to `GREATEST_PRICE`.
#[derive(Clone, Copy, Debug, PartialEq, Eq)]
pub struct Mills {
    price: u32,
}

impl Model for Mills {
    ghost use Rattle.std.specs.Prelude.{ℕ, ◌≤◌};
    ghost use Rattle.site_base.specs.declared.amounts.TheConstants.{GREATEST_PRICE};

    ghost Value = { ℕ };

    ghost view = { λ n. n.price };

    ghost invariant = { λ n. (1 ≤ n.price) × (n.price ≤ GREATEST_PRICE) };

    ghost inverse = { λ n. record { price = n } };
}

impl Mills {
    /// Returns this price, if it is in range.
    pub fn new(price: u32) -> Option<Self>
        ensures valid { IsSome result ↔ ((1 ≤ price) × (price ≤ GREATEST_PRICE)) }
        ensures value { IfSome result (λ n. n ≡ price) }
    {
        if 1 <= price && price <= GREATEST_PRICE {
            Some(Mills { price })
        } else {
            None
        }
    }

    /// Returns the mills per litre.
    pub fn get(self) -> u32
        ensures value { result ≡ self }
        ensures range { (1 ≤ result) × (result ≤ GREATEST_PRICE) }
    {
        self.price
    }
}

/// One amount of money in cents, from 0 to `GREATEST_CENTS`.
#[derive(Clone, Copy, Debug, PartialEq, Eq)]
pub struct Cents {
    amount: u64,
}

impl Model for Cents {
    ghost use Rattle.std.specs.Prelude.{ℕ, ◌≤◌};
    ghost use Rattle.site_base.specs.declared.amounts.TheConstants.{GREATEST_CENTS};

    ghost Value = { ℕ };

    ghost view = { λ n. n.amount };

    ghost invariant = { λ n. n.amount ≤ GREATEST_CENTS };

    ghost inverse = { λ n. record { amount = n } };
}

impl Cents {
    /// Returns this amount, if it is in range.
    pub fn new(amount: u64) -> Option<Self>
        ensures valid { IsSome result ↔ (amount ≤ GREATEST_CENTS) }
        ensures value { IfSome result (λ n. n ≡ amount) }
    {
        if amount <= GREATEST_CENTS {
            Some(Cents { amount })
        } else {
            None
        }
    }

    /// Returns the cents.
    pub fn get(self) -> u64
        ensures value { result ≡ self }
        ensures range { result ≤ GREATEST_CENTS }
    {
        self.amount
    }
}

/// Returns what a volume costs at a price: millilitres times mills per litre, in cents, rounded
/// half up.
pub fn amount_of(volume: Millilitres, price: Mills) -> Cents
    ensures { result ≡ amount volume price }
{
    Cents {
        amount: (volume.get() * u64::from(price.get()) + 5_000) / 10_000,
    }
}

/// Returns the greatest number of millilitres whose amount at this price isn't above these cents.
/// It may be above the range of `Millilitres`.
pub fn greatest_ml(cents: Cents, price: Mills) -> u64
    ensures { IsGreatestVolume cents price result }
{
    ((cents.get() + 1) * 10_000 - 5_001) / u64::from(price.get())
}
