//! Where a row is in a table whose rows are found by a number.

ghost use Rattle.std.specs.Prelude.{◌≡◌, is_some, IfSome};
ghost use Rattle.site_base.specs.Table.{row_by, IsPlace};

use crate::numbers::Number;

/// Returns the place of the key's row: the first row whose key has that number.
pub fn place_of<K: Number, T>(rows: &[(K, T)], key: K) -> Option<usize>
    ensures found { IfSome result (IsPlace K.number key rows.now) }
    ensures there { is_some result ≡ is_some (row_by K.number key rows.now) }
{
    let number = key.number();
    for (place, row) in rows.iter().enumerate() {
        if row.0.number() == number {
            return Some(place);
        }
    }
    None
}
