//! The jumps of replaced meters as JSON.

ghost use Rattle.std.specs.Prelude.{◌≡◌, ◌++◌, map, IfOk, OnOk, option_copied};
ghost use Rattle.serde_json.specs.View.{view};
ghost use Rattle.site_gaps.specs.JumpData.{jump_data, jump_if, jumps_data, jumps_from};

use row_tally::{MeterJumps, RowTally};
use serde_json::{Value, json};
use site_base::{NOZZLES, NoMemory};
use std::alloc::{AllocError, Global};

/// Returns the nozzles whose meters were replaced by rows of a tally; null without a tally.
pub fn jumps_value(alloc: Global, tally: Option<&RowTally>) -> Result<Value, NoMemory>
    ensures { IfOk result (λ value. view value ≡ jumps_data (option_copied tally.entry)) }
{
    match tally {
        Some(tally) => Ok(Value::Array(jump_values(alloc, tally.jumps())?)),
        None => Ok(Value::Null),
    }
}

/// Those of these, in their cells, that jumped.
fn jump_values(alloc: Global, jumps: &[MeterJumps]) -> Result<Vec<Value>, NoMemory>
    ensures { IfOk result (λ values. map view values.items ≡ jumps_from 0 jumps.now) }
{
    let mut values = Vec::new(alloc);
    for (cell, nozzle) in jumps.iter().enumerate() {
        add_jump(alloc, cell, nozzle, &mut values)?;
    }
    Ok(values)
}

/// Adds a nozzle, if its meter was replaced.
fn add_jump(
    alloc: Global,
    cell: usize,
    jumps: &MeterJumps,
    values: &mut Vec<Value>,
) -> Result<(), NoMemory>
    ensures { OnOk result
        (map view values.new.items ≡ map view values.old.items ++ jump_if cell jumps.now) }
{
    if 0 < jumps.replaced {
        values.push(jump_value(alloc, cell, jumps)?)?;
    }
    Ok(())
}

/// The nozzle of a cell, whose meter was replaced.
fn jump_value(alloc: Global, cell: usize, jumps: &MeterJumps) -> Result<Value, AllocError>
    ensures { IfOk result (λ value. view value ≡ jump_data cell jumps.now) }
{
    let nozzles = usize::from(NOZZLES);
    json!(in alloc; {
        "lowered": jumps.lowered,
        "nozzle": cell % nozzles + 1,
        "point": cell / nozzles + 1,
        "raised": jumps.raised,
        "replaced": jumps.replaced
    })
}
