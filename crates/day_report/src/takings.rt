//! What all tills cleared.

ghost use Rattle.std.specs.Prelude.{◌≡◌};
ghost use Rattle.day_report.specs.Takings.{all_cents, all_clears};

use site_base::TillNo;

/// What all tills cleared: the number of transactions, and their cents. A sum of 64-bit figures may
/// need more than 64 bits.
#[derive(Clone, Copy, Debug)]
pub struct Takings {
    pub clears: u128,
    pub cents: u128,
}

impl Takings {
    /// Returns the sums over these tills. Each till has its number of clears and their cents.
    pub fn of(tills: &[(TillNo, u64, u64)]) -> Takings
        ensures clears { result.clears ≡ all_clears tills.now }
        ensures cents { result.cents ≡ all_cents tills.now }
    {
        let (mut clears, mut cents) = (0, 0);
        for (_, by_till, their_cents) in tills {
            clears += u128::from(*by_till);
            cents += u128::from(*their_cents);
        }
        Takings { clears, cents }
    }
}
