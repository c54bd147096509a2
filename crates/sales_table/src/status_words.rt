//! The status of a sale, as a word.

ghost use Rattle.std.specs.Prelude.{◌≡◌};
ghost use Rattle.sales_table.specs.Tables.{cleared_in, status_word};
ghost use Rattle.transaction_buffer.specs.Sales.{status_of, till_of};

use transaction_buffer::Standing;

/// Returns `payable`, `locked` or `cleared`.
pub fn status_word(standing: &Standing) -> &str
    ensures { result.now ≡ status_word (status_of standing.now) }
{
    match standing {
        Standing::Payable => "payable",
        Standing::LockedBy(_) => "locked",
        Standing::ClearedBy(_, _) => "cleared",
    }
}

/// Returns the number of the till that has locked or cleared the sale.
pub fn till_of(standing: &Standing) -> Option<u32>
    ensures { result ≡ till_of standing.now }
{
    match standing {
        Standing::Payable => None,
        Standing::LockedBy(till) => Some(u32::from(till.get())),
        Standing::ClearedBy(till, _) => Some(u32::from(till.get())),
    }
}

/// Returns the number of the shift in which the sale was cleared.
pub fn cleared_in(standing: &Standing) -> Option<u32>
    ensures { result ≡ cleared_in standing.now }
{
    match standing {
        Standing::ClearedBy(_, shift) => Some(u32::from(shift.get())),
        _ => None,
    }
}
