//! What a tally of rows tells: how many rows were refused, and how many gaps are open.

ghost use Rattle.std.specs.Prelude.{◌≡◌, ◌++◌, OnOk, flat_map, option_copied, string_bytes};
ghost use Rattle.site_metrics.specs.Tallied.{gaps_line, gaps_text, refusal_line, refusal_text};
ghost use Rattle.site_metrics.specs.Tallied.{refusals_text};
ghost use Rattle.site_metrics.specs.Tallied.{tally_text, told_text};

use crate::families::{put_gauge, put_head, put_numbered, put_sample};
use row_tally::RowTally;
use std::alloc::AllocError;

/// The numbers of the refusals, in order.
const REFUSALS: [u8; 25] = [
    1, 2, 3, 4, 5, 6, 7, 8, 9, 10, 11, 12, 13, 14, 15, 16, 17, 18, 19, 20, 21, 22, 23, 24, 25,
];

/// Appends what a tally tells, if there is one.
pub(crate) fn put_tally(text: &mut String, tally: Option<&RowTally>) -> Result<(), AllocError>
    ensures { OnOk result (string_bytes text.new
        ≡ string_bytes text.old ++ tally_text (option_copied tally.entry)) }
{
    match tally {
        Some(tally) => put_told(text, tally),
        None => Ok(()),
    }
}

/// Appends what a tally tells.
fn put_told(text: &mut String, tally: &RowTally) -> Result<(), AllocError>
    ensures { OnOk result (string_bytes text.new ≡ string_bytes text.old ++ told_text tally.now) }
{
    put_refusals(text, tally)?;
    put_gaps(text, tally)
}

/// Appends how many rows were refused, by refusals.
fn put_refusals(text: &mut String, tally: &RowTally) -> Result<(), AllocError>
    ensures { OnOk result (string_bytes text.new
        ≡ string_bytes text.old ++ refusals_text tally.now) }
{
    let help = "Rows that were refused, by refusal.";
    put_head(text, "witsomar_refused_rows", "gauge", help)?;
    put_each(text, tally, &REFUSALS)
}

/// Appends how many rows were refused with each of these refusals.
fn put_each(text: &mut String, tally: &RowTally, refusals: &[u8]) -> Result<(), AllocError>
    ensures { OnOk result (string_bytes text.new
        ≡ string_bytes text.old ++ flat_map (refusal_text tally.now) refusals.now) }
{
    for refusal in refusals {
        put_refusal_line(text, *refusal, u128::from(tally.refused_as(*refusal)))?;
    }
    Ok(())
}

/// Appends that so many rows were refused with the refusal of this number.
fn put_refusal_line(text: &mut String, refusal: u8, count: u128) -> Result<(), AllocError>
    ensures { OnOk result (string_bytes text.new
        ≡ string_bytes text.old ++ refusal_line refusal count) }
{
    put_numbered(text, "witsomar_refused_rows{refusal=\"", refusal)?;
    put_sample(text, "\"}", "", count)
}

/// Appends how many gaps are open.
fn put_gaps(text: &mut String, tally: &RowTally) -> Result<(), AllocError>
    ensures { OnOk result (string_bytes text.new ≡ string_bytes text.old ++ gaps_text tally.now) }
{
    put_gaps_line(text, tally.open_runs().len() as u128)
}

/// Appends that so many gaps are open.
fn put_gaps_line(text: &mut String, count: u128) -> Result<(), AllocError>
    ensures { OnOk result (string_bytes text.new ≡ string_bytes text.old ++ gaps_line count) }
{
    let help = "Nozzles whose refused readings no accepted one has settled.";
    put_gauge(text, "witsomar_open_gaps", help, count)
}
