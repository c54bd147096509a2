//! One line of comma-separated values.

ghost use Rattle.std.specs.Prelude.{◌≡◌, ◌++◌, map, IfOk};
ghost use Rattle.csv.specs.Writing.{default_writer, row_text};

use csv::WriterBuilder;
use site_base::NoMemory;
use std::alloc::Global;

/// Returns the line of `fields` and then `more`, with its line feed, as the default writer of the
/// crate `csv` writes it. The writer writes into memory, so the only error is that memory runs out.
pub fn csv_line<'a>(
    alloc: Global,
    fields: &'a [&'a [u8]],
    more: &'a [&'a [u8]],
) -> Result<Vec<u8>, NoMemory>
    ensures { IfOk result (λ line. line.items
        ≡ row_text default_writer (map (λ f. f.now) (fields.now ++ more.now))) }
{
    let mut all = Vec::from_slice(alloc, fields)?;
    all.extend_from_slice(more)?;
    let mut writer = WriterBuilder::new().from_writer(Vec::new(alloc));
    if writer.write_fields(&all).is_err() {
        return Err(NoMemory);
    }
    match writer.into_inner() {
        Ok(line) => Ok(line),
        Err(_) => Err(NoMemory),
    }
}
