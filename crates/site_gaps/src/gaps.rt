//! Open gaps as JSON.

ghost use Rattle.std.specs.Prelude.{◌≡◌, map, IfOk, option_copied};
ghost use Rattle.serde_json.specs.View.{view};
ghost use Rattle.site_gaps.specs.GapData.{gap_data, gaps_data};

use row_tally::{RefusedRun, RowTally};
use serde_json::{Value, json};
use site_base::NoMemory;
use site_json::time_if;
use std::alloc::{AllocError, Global};

/// Returns the open gaps of a tally; null without a tally.
pub fn gaps_value(alloc: Global, tally: Option<&RowTally>) -> Result<Value, NoMemory>
    ensures { IfOk result (λ value. view value ≡ gaps_data (option_copied tally.entry)) }
{
    match tally {
        Some(tally) => Ok(Value::Array(run_values(alloc, tally.open_runs())?)),
        None => Ok(Value::Null),
    }
}

/// These runs, in their order.
fn run_values(alloc: Global, runs: &[RefusedRun]) -> Result<Vec<Value>, NoMemory>
    ensures { IfOk result (λ values. map view values.items ≡ map gap_data runs.now) }
{
    let mut values = Vec::new(alloc);
    for run in runs {
        values.push(run_value(alloc, run)?)?;
    }
    Ok(values)
}

/// An open run of refused readings.
fn run_value(alloc: Global, run: &RefusedRun) -> Result<Value, AllocError>
    ensures { IfOk result (λ value. view value ≡ gap_data run.now) }
{
    let since = time_if(alloc, &run.first.at)?;
    json!(in alloc; {
        "expected": run.expected.get(),
        "nozzle": run.nozzle.get(),
        "point": run.point.get(),
        "refusal": run.refusal.number(),
        "reported": run.reported.get(),
        "row": run.first.row,
        "since": since
    })
}
