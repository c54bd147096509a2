//! What a shift's figures say of all tills, and of a product.

ghost use Rattle.std.specs.Prelude.{◌≡◌};
ghost use Rattle.shift_ledger.specs.Figures.{product_figure};
ghost use Rattle.shift_table.specs.ShiftSums.{all_cents, all_clears};

use shift_ledger::ShiftRow;
use site_base::ProductNo;

/// Returns how many transactions these tills cleared. Each till has its number of clears and their
/// cents. The sum of 64-bit figures may need more than 64 bits.
pub fn count_clears(tills: &[(u64, u64)]) -> u128
    ensures { result ≡ all_clears tills.now }
{
    let mut clears = 0;
    for (by_till, _) in tills {
        clears += u128::from(*by_till);
    }
    clears
}

/// Returns the cents of what these tills cleared.
pub fn sum_cents(tills: &[(u64, u64)]) -> u128
    ensures { result ≡ all_cents tills.now }
{
    let mut cents = 0;
    for (_, by_till) in tills {
        cents += u128::from(*by_till);
    }
    cents
}

/// Returns the millilitres of a product that were cleared in a shift.
pub fn cleared_volume(row: &ShiftRow, q: ProductNo) -> u64
    ensures { result ≡ product_figure q row.now }
{
    row.products[q.cell()]
}
