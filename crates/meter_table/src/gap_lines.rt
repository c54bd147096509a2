//! The lines of gaps, as comma-separated values and as JSON.

ghost use Rattle.std.specs.Prelude.{◌≡◌, IfOk, string_bytes};
ghost use Rattle.csv.specs.Writing.{default_writer, row_text};
ghost use Rattle.serde_json.specs.View.{view};
ghost use Rattle.serde_json.specs.Written.{compact_text};
ghost use Rattle.meter_table.specs.Tables.{gap_titles, replaced_data, replaced_fields};
ghost use Rattle.meter_table.specs.Tables.{run_data, run_fields, settled_word};

use crate::gap::Replacement;
use crate::words::{difference_value, difference_word, number_value, time_field, time_value};
use itoa::Buffer;
use row_tally::RefusedRun;
use sales_table::csv_line;
use serde_json::{Value, json};
use site_base::NoMemory;
use std::alloc::{AllocError, Global};

/// The titles of the table of gaps, as a line.
pub(crate) fn gap_titles(alloc: Global) -> Result<Vec<u8>, NoMemory>
    ensures { IfOk result (λ line. line.items ≡ row_text default_writer gap_titles) }
{
    csv_line(
        alloc,
        &[b"gap", b"row", b"last row", b"at", b"point", b"nozzle"],
        &[
            b"till",
            b"refusal",
            b"expected",
            b"reported",
            b"difference",
            b"settled by row",
        ],
    )
}

/// The line of a replaced meter, in the order of the titles.
pub(crate) fn replaced_line(alloc: Global, x: &Replacement) -> Result<Vec<u8>, NoMemory>
    ensures { IfOk result (λ line.
        line.items ≡ row_text default_writer (replaced_fields x.now)) }
{
    let (mut row, mut point, mut nozzle) = (Buffer::new(), Buffer::new(), Buffer::new());
    let (mut till, mut old, mut new) = (Buffer::new(), Buffer::new(), Buffer::new());
    let difference = difference_word(alloc, x.new.get(), x.old.get())?;
    let kind = Vec::from_slice(alloc, b"replaced")?;
    let (last, refusal, settled) = (Vec::new(alloc), Vec::new(alloc), Vec::new(alloc));
    csv_line(
        alloc,
        &[
            &kind,
            row.format(x.place.row).as_bytes(),
            &last,
            time_field(&x.place.at),
            point.format(x.point.get()).as_bytes(),
            nozzle.format(x.nozzle.get()).as_bytes(),
        ],
        &[
            till.format(x.till.get()).as_bytes(),
            &refusal,
            old.format(x.old.get()).as_bytes(),
            new.format(x.new.get()).as_bytes(),
            &difference,
            &settled,
        ],
    )
}

/// The line of a run of refused readings, in the order of the titles.
pub(crate) fn run_line(alloc: Global, x: &RefusedRun) -> Result<Vec<u8>, NoMemory>
    ensures { IfOk result (λ line. line.items ≡ row_text default_writer (run_fields x.now)) }
{
    let (mut row, mut last, mut point) = (Buffer::new(), Buffer::new(), Buffer::new());
    let (mut nozzle, mut refusal, mut expected) = (Buffer::new(), Buffer::new(), Buffer::new());
    let (mut reported, mut settled) = (Buffer::new(), Buffer::new());
    let difference = difference_word(alloc, x.reported.get(), x.expected.get())?;
    let (kind, none) = (Vec::from_slice(alloc, b"refused")?, Vec::new(alloc));
    csv_line(
        alloc,
        &[
            &kind,
            row.format(x.first.row).as_bytes(),
            last.format(x.last).as_bytes(),
            time_field(&x.first.at),
            point.format(x.point.get()).as_bytes(),
            nozzle.format(x.nozzle.get()).as_bytes(),
        ],
        &[
            &none,
            refusal.format(x.refusal.number()).as_bytes(),
            expected.format(x.expected.get()).as_bytes(),
            reported.format(x.reported.get()).as_bytes(),
            &difference,
            settled_word(&mut settled, x.settled).as_bytes(),
        ],
    )
}

/// The row that settled a run, or that it is open.
fn settled_word(buffer: &mut Buffer, settled: Option<u64>) -> &str
    ensures { result.now ≡ settled_word settled }
{
    match settled {
        Some(row) => buffer.format(row),
        None => "open",
    }
}

/// A replaced meter as a JSON object.
pub(crate) fn replaced_object(alloc: Global, x: &Replacement) -> Result<String, NoMemory>
    ensures { IfOk result (λ text. string_bytes text ≡ compact_text (replaced_data x.now)) }
{
    Ok(replaced_value(alloc, x)?.to_string(alloc)?)
}

fn replaced_value(alloc: Global, x: &Replacement) -> Result<Value, AllocError>
    ensures { IfOk result (λ value. view value ≡ replaced_data x.now) }
{
    let at = time_value(alloc, &x.place.at)?;
    let difference = difference_value(x.new.get(), x.old.get());
    json!(in alloc; {
        "gap": "replaced",
        "row": x.place.row,
        "at": at,
        "point": x.point.get(),
        "nozzle": x.nozzle.get(),
        "till": x.till.get(),
        "old": x.old.get(),
        "new": x.new.get(),
        "difference": difference
    })
}

/// A run of refused readings as a JSON object.
pub(crate) fn run_object(alloc: Global, x: &RefusedRun) -> Result<String, NoMemory>
    ensures { IfOk result (λ text. string_bytes text ≡ compact_text (run_data x.now)) }
{
    Ok(run_value(alloc, x)?.to_string(alloc)?)
}

fn run_value(alloc: Global, x: &RefusedRun) -> Result<Value, AllocError>
    ensures { IfOk result (λ value. view value ≡ run_data x.now) }
{
    let at = time_value(alloc, &x.first.at)?;
    let difference = difference_value(x.reported.get(), x.expected.get());
    let settled = number_value(x.settled);
    json!(in alloc; {
        "gap": "refused",
        "row": x.first.row,
        "last row": x.last,
        "at": at,
        "point": x.point.get(),
        "nozzle": x.nozzle.get(),
        "refusal": x.refusal.number(),
        "expected": x.expected.get(),
        "reported": x.reported.get(),
        "difference": difference,
        "settled by row": settled
    })
}
