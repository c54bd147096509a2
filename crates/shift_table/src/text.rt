//! A shift as a line of text.

ghost use Rattle.std.specs.Prelude.{◌≡◌, ◌++◌, flat_map, string_bytes, OnOk};
ghost use Rattle.shift_table.specs.ShiftLines.{product_words, shift_line, takings_words};
ghost use Rattle.shift_table.specs.ShiftLines.{time_word};

use crate::sums::{cleared_volume, count_clears, sum_cents};
use row_tally::ShiftTimes;
use shift_ledger::ShiftRow;
use site_base::{NoMemory, ProductEntry, ShiftNo};
use stamps::Stamp;

/// Appends the line of a shift: its number, its times, what all tills cleared in it, and for each
/// of these products the millilitres that were cleared and those that tests drew.
pub fn put_shift_line(
    text: &mut String,
    products: &[ProductEntry],
    number: ShiftNo,
    times: &ShiftTimes,
    row: &ShiftRow,
) -> Result<(), NoMemory>
    ensures { OnOk result (string_bytes text.new
        ≡ string_bytes text.old ++ shift_line products.now number times.now row.now) }
{
    put_takings(text, number, times, row)?;
    put_products(text, products, row)?;
    text.push_str("\n")?;
    Ok(())
}

/// Appends the number of a shift, its times, and what all tills cleared in it.
fn put_takings(
    text: &mut String,
    number: ShiftNo,
    times: &ShiftTimes,
    row: &ShiftRow,
) -> Result<(), NoMemory>
    ensures { OnOk result (string_bytes text.new
        ≡ string_bytes text.old ++ takings_words number times.now row.now) }
{
    let (opened, closed) = (time_word(&times.opened), time_word(&times.closed));
    let (clears, cents) = (count_clears(&row.tills), sum_cents(&row.tills));
    write!(
        text,
        "shift {} opened {opened} closed {closed}",
        number.get()
    )?;
    write!(text, " clears {clears} cents {cents}")?;
    Ok(())
}

/// Appends the millilitres of each product.
fn put_products(
    text: &mut String,
    products: &[ProductEntry],
    row: &ShiftRow,
) -> Result<(), NoMemory>
    ensures { OnOk result (string_bytes text.new
        ≡ string_bytes text.old ++ flat_map (product_words row.now) products.now) }
{
    for product in products {
        put_product(text, product, row)?;
    }
    Ok(())
}

/// Appends the millilitres of a product.
#[tactic(auto, unfolding(crate::specs::ShiftLines::product_words))]
fn put_product(text: &mut String, product: &ProductEntry, row: &ShiftRow) -> Result<(), NoMemory>
    ensures { OnOk result
        (string_bytes text.new ≡ string_bytes text.old ++ product_words row.now product.now) }
{
    let q = product.number;
    let (cleared, drawn) = (cleared_volume(row, q), row.drawn_volume(q));
    write!(text, " product {} cleared {cleared} drawn {drawn}", q.get())?;
    Ok(())
}

/// A time; where it isn't known, `-`.
fn time_word(time: &Option<Stamp>) -> &str
    ensures { result.now ≡ time_word time.now }
{
    match time {
        Some(time) => time.as_str(),
        None => "-",
    }
}
