//! The lines of draws.

ghost use Rattle.std.specs.Prelude.{◌≡◌, IfOk};
ghost use Rattle.csv.specs.Writing.{default_writer, row_text};
ghost use Rattle.sales_table.specs.Tables.{draw_line, draw_titles};

use crate::csv_fields::csv_line;
use crate::names::name_of;
use itoa::Buffer;
use site_base::{NoMemory, ProductEntry};
use site_book::Draw;
use std::alloc::Global;

/// Returns the titles of a table of draws, as a line.
pub fn draw_titles(alloc: Global) -> Result<Vec<u8>, NoMemory>
    ensures { IfOk result (λ line. line.items ≡ row_text default_writer draw_titles) }
{
    csv_line(
        alloc,
        &[b"shift", b"point", b"product", b"name", b"millilitres"],
        &[],
    )
}

/// Returns the line of a draw, in the order of the titles.
pub fn draw_line(alloc: Global, products: &[ProductEntry], draw: &Draw) -> Result<Vec<u8>, NoMemory>
    ensures { IfOk result (λ line. line.items ≡ draw_line products.now draw.now) }
{
    let (mut shift, mut point) = (Buffer::new(), Buffer::new());
    let (mut product, mut volume) = (Buffer::new(), Buffer::new());
    csv_line(
        alloc,
        &[
            shift.format(draw.shift.get()).as_bytes(),
            point.format(draw.point.get()).as_bytes(),
            product.format(draw.product.get()).as_bytes(),
            name_of(products, draw.product).as_bytes(),
            volume.format(draw.volume.get()).as_bytes(),
        ],
        &[],
    )
}
