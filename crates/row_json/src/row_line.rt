//! The line of a row.

ghost use Rattle.std.specs.Prelude.{◌≡◌, IfOk, string_bytes};
ghost use Rattle.serde_json.specs.Written.{compact_text};
ghost use Rattle.row_json.specs.RowObjects.{row_data, row_line};

use crate::row_object::row_value;
use crate::told_row::ToldRow;
use site_base::NoMemory;
use std::alloc::Global;

/// Returns a row as a JSON object, with a line feed.
pub fn row_line(alloc: Global, told: &ToldRow) -> Result<String, NoMemory>
    ensures { IfOk result (λ line. string_bytes line ≡ row_line told.now) }
{
    let mut line = row_object(alloc, told)?;
    line.push_str("\n")?;
    Ok(line)
}

/// A row as a JSON object.
fn row_object(alloc: Global, told: &ToldRow) -> Result<String, NoMemory>
    ensures { IfOk result (λ text. string_bytes text ≡ compact_text (row_data told.now)) }
{
    let value = row_value(alloc, told)?;
    Ok(value.to_string(alloc)?)
}
