//! The tables of nozzles and of gaps, as complete texts.

ghost use Rattle.std.specs.Prelude.{◌≡◌, ◌≢◌, ◌++◌, IfOk, OnOk, codes, flat_map, string_bytes};
ghost use Rattle.meter_table.specs.Tables.{figure_text, figure_titles, figures_text, gap_titles};
ghost use Rattle.meter_table.specs.Tables.{gaps_text, head_text, replaced_text, run_text};

use crate::figure_lines::{figure_line, figure_object, figure_titles};
use crate::figures::NozzleFigures;
use crate::form::Form;
use crate::gap::Replacement;
use crate::gap_lines::{gap_titles, replaced_line, replaced_object, run_line, run_object};
use crate::gap_list::GapList;
use crate::people::{put_figures, put_replaced, put_run};
use row_tally::RefusedRun;
use site_base::{NoMemory, ProductEntry};
use std::alloc::Global;

/// Returns the table of these nozzles: a line for each, in this order.
pub fn figures_table(
    alloc: Global,
    products: &[ProductEntry],
    figures: &[NozzleFigures],
    form: Form,
) -> Result<Vec<u8>, NoMemory>
    ensures { form ≢ Form.Text → IfOk result (λ text.
        text.items ≡ figures_text form products.now figures.now) }
{
    match form {
        Form::Text => {
            let mut text = Vec::new(alloc);
            put_figures(alloc, products, figures, &mut text)?;
            Ok(text)
        }
        Form::Csv => csv_table(alloc, products, figures),
        Form::Json => json_table(alloc, products, figures),
    }
}

/// The same as comma-separated values.
fn csv_table(
    alloc: Global,
    products: &[ProductEntry],
    figures: &[NozzleFigures],
) -> Result<Vec<u8>, NoMemory>
    ensures { IfOk result (λ text. text.items ≡ figures_text Form.Csv products.now figures.now) }
{
    let mut text = figure_titles(alloc)?;
    for x in figures {
        text.extend_from_slice(&figure_line(alloc, products, x)?)?;
    }
    Ok(text)
}

/// The same as JSON.
fn json_table(
    alloc: Global,
    products: &[ProductEntry],
    figures: &[NozzleFigures],
) -> Result<Vec<u8>, NoMemory>
    ensures { IfOk result (λ text. text.items ≡ figures_text Form.Json products.now figures.now) }
{
    let mut text = Vec::new(alloc);
    for x in figures {
        put_object(&mut text, &figure_object(alloc, products, x)?)?;
    }
    Ok(text)
}

/// Returns the table of gaps: each replaced meter, each settled run of refused readings, and each
/// open run.
pub fn gaps_table(alloc: Global, gaps: &GapList, form: Form) -> Result<Vec<u8>, NoMemory>
    ensures { form ≢ Form.Text → IfOk result (λ text. text.items ≡ gaps_text form gaps.now) }
{
    let mut text = gap_head(alloc, form)?;
    for x in gaps.replaced() {
        put_replaced_line(alloc, form, x, &mut text)?;
    }
    put_runs(alloc, form, gaps.settled(), &mut text)?;
    put_runs(alloc, form, gaps.unsettled(), &mut text)?;
    Ok(text)
}

/// What stands above the lines of gaps.
fn gap_head(alloc: Global, form: Form) -> Result<Vec<u8>, NoMemory>
    ensures { IfOk result (λ text. text.items ≡ head_text form gap_titles) }
{
    match form {
        Form::Csv => gap_titles(alloc),
        Form::Text | Form::Json => Ok(Vec::new(alloc)),
    }
}

/// Appends the line of a replaced meter.
fn put_replaced_line(
    alloc: Global,
    form: Form,
    x: &Replacement,
    text: &mut Vec<u8>,
) -> Result<(), NoMemory>
    ensures { form ≢ Form.Text → OnOk result
        (text.new.items ≡ text.old.items ++ replaced_text form x.now) }
{
    match form {
        Form::Text => put_replaced(alloc, x, text),
        Form::Csv => Ok(text.extend_from_slice(&replaced_line(alloc, x)?)?),
        Form::Json => put_object(text, &replaced_object(alloc, x)?),
    }
}

/// Appends the lines of these runs.
fn put_runs(
    alloc: Global,
    form: Form,
    runs: &[RefusedRun],
    text: &mut Vec<u8>,
) -> Result<(), NoMemory>
    ensures { form ≢ Form.Text → OnOk result
        (text.new.items ≡ text.old.items ++ flat_map (run_text form) runs.now) }
{
    for run in runs {
        put_run_line(alloc, form, run, text)?;
    }
    Ok(())
}

/// Appends the line of a run.
fn put_run_line(
    alloc: Global,
    form: Form,
    x: &RefusedRun,
    text: &mut Vec<u8>,
) -> Result<(), NoMemory>
    ensures { form ≢ Form.Text → OnOk result
        (text.new.items ≡ text.old.items ++ run_text form x.now) }
{
    match form {
        Form::Text => put_run(alloc, x, text),
        Form::Csv => Ok(text.extend_from_slice(&run_line(alloc, x)?)?),
        Form::Json => put_object(text, &run_object(alloc, x)?),
    }
}

/// Appends an object, and ends its line.
fn put_object(text: &mut Vec<u8>, object: &String) -> Result<(), NoMemory>
    ensures { OnOk result
        (text.new.items ≡ text.old.items ++ (string_bytes object.now ++ codes "\n")) }
{
    text.extend_from_slice(object.as_str().as_bytes())?;
    text.push(b'\n')?;
    Ok(())
}
