//! The runs of refused readings that are open.

ghost use Rattle.std.specs.Prelude.{◌≡◌, ◌++◌, [], OnOk};
ghost use Rattle.std.specs.List.{cons_option};
ghost use Rattle.row_tally.specs.Runs.{run_place, runs_refused, settled_run, with_refused};
ghost use Rattle.row_tally.specs.Runs.{without_run};

use crate::meter_reading::MeterReading;
use crate::refused_run::{RefusedRun, RowPlace};
use site_base::{Millilitres, NoMemory, Refusal};
use std::alloc::Global;
use std::marker::Model;

/// The open runs of refused readings: at most one for each nozzle, in the order in which they
/// began.
#[derive(Drop)]
pub struct OpenRuns {
    runs: Vec<RefusedRun>,
}

impl Model for OpenRuns {
    ghost use Rattle.std.specs.Prelude.{List};
    ghost use Rattle.row_tally.specs.declared.refused_run.RefusedRun.{RefusedRun as Run};

    ghost Value = { List Run };

    ghost view = { λ r. r.runs.items };
}

impl OpenRuns {
    /// Returns no runs. It takes no memory.
    pub fn new(alloc: Global) -> OpenRuns
        ensures { result ≡ [] }
    {
        OpenRuns {
            runs: Vec::new(alloc),
        }
    }

    /// Notes that this row accepted a reading. The open run of its nozzle, if there is one, is
    /// settled, and returned.
    pub fn settle(&mut self, row: u64, told: &MeterReading) -> Option<RefusedRun>
        ensures settled { cons_option result []
            ≡ settled_run row told.now.point told.now.nozzle self.old }
        ensures left { self.new ≡ without_run told.now.point told.now.nozzle self.old }
    {
        take_run(&mut self.runs, row, told)
    }

    /// Does the same as `settle`, and appends the settled run, if there is one, to `settled`.
    pub fn settle_into(
        &mut self,
        settled: &mut Vec<RefusedRun>,
        row: u64,
        told: &MeterReading,
    ) -> Result<(), NoMemory>
        ensures settled { OnOk result (settled.new.items ≡ settled.old.items
            ++ settled_run row told.now.point told.now.nozzle self.old) }
        ensures left { OnOk result
            (self.new ≡ without_run told.now.point told.now.nozzle self.old) }
    {
        settle(settled, &mut self.runs, row, told)
    }

    /// Notes a refused reading. `expected` is the reading that the site has. If the meter was the
    /// reason of the refusal, the reading joins the run of its nozzle, or begins one.
    pub fn refuse(
        &mut self,
        place: &RowPlace,
        expected: Millilitres,
        refusal: Refusal,
        told: &MeterReading,
    ) -> Result<(), NoMemory>
        ensures { OnOk result
            (self.new ≡ runs_refused place.now expected refusal told.now self.old) }
    {
        match refusal {
            Refusal::MeterGap(_) | Refusal::MeterBack(_) | Refusal::MeterJump => {
                add_refused(&mut self.runs, place, expected, refusal, told)
            }
            _ => Ok(()),
        }
    }

    /// Returns the runs.
    pub fn as_slice(&self) -> &[RefusedRun]
        ensures { result.now ≡ self.now }
    {
        &self.runs
    }
}

/// The open run of this reading's nozzle, if it has one, is settled by this row.
fn settle(
    settled: &mut Vec<RefusedRun>,
    runs: &mut Vec<RefusedRun>,
    row: u64,
    told: &MeterReading,
) -> Result<(), NoMemory>
    ensures settled { OnOk result (settled.new.items ≡ settled.old.items
        ++ settled_run row told.now.point told.now.nozzle runs.old.items) }
    ensures unsettled { OnOk result
        (runs.new.items ≡ without_run told.now.point told.now.nozzle runs.old.items) }
{
    match find_run(runs, told) {
        Some(place) => {
            let run = runs.remove(place);
            settled.push(run.settled_by(row))?;
            Ok(())
        }
        None => Ok(()),
    }
}

/// Takes the open run of this reading's nozzle out, if it has one: this row settles it.
fn take_run(runs: &mut Vec<RefusedRun>, row: u64, told: &MeterReading) -> Option<RefusedRun>
    ensures settled { cons_option result []
        ≡ settled_run row told.now.point told.now.nozzle runs.old.items }
    ensures left { runs.new.items
        ≡ without_run told.now.point told.now.nozzle runs.old.items }
{
    match find_run(runs, told) {
        Some(place) => {
            let run = runs.remove(place);
            Some(run.settled_by(row))
        }
        None => None,
    }
}

/// The open run of this reading's nozzle goes on with it, or begins.
fn add_refused(
    runs: &mut Vec<RefusedRun>,
    place: &RowPlace,
    expected: Millilitres,
    refusal: Refusal,
    told: &MeterReading,
) -> Result<(), NoMemory>
    ensures { OnOk result (runs.new.items
        ≡ with_refused place.now told.now expected refusal runs.old.items) }
{
    match find_run(runs, told) {
        Some(found) => {
            let run = &mut runs[found];
            run.go_on(place, told, refusal);
        }
        None => runs.push(RefusedRun::begin(place, told, expected, refusal))?,
    }
    Ok(())
}

/// The place of the open run of this reading's nozzle, if it has one.
fn find_run(runs: &[RefusedRun], told: &MeterReading) -> Option<usize>
    ensures { result ≡ run_place told.now.point told.now.nozzle runs.now }
{
    for (place, run) in runs.iter().enumerate() {
        if run.is_of_nozzle(told.point, told.nozzle) {
            return Some(place);
        }
    }
    None
}
