//! The gaps that were found so far.

ghost use Rattle.std.specs.Prelude.{◌≡◌, OnOk};
ghost use Rattle.meter_table.specs.Gaps.{gaps_accepted, gaps_refused, no_gaps};

use crate::gap::{Replacement, add_replaced};
use row_tally::{MeterReading, OpenRuns, RefusedRun, RowPlace};
use site_base::{Millilitres, NoMemory, Refusal, Row};
use std::alloc::Global;
use std::marker::Model;

/// The gaps of the rows so far.
#[derive(Drop)]
pub struct GapList {
    // In the order of their rows.
    replaced: Vec<Replacement>,
    // In the order of the rows that settled them.
    settled: Vec<RefusedRun>,
    unsettled: OpenRuns,
}

impl Model for GapList {
    ghost use Rattle.meter_table.specs.Gaps.{Gaps};

    ghost Value = { Gaps };

    ghost view = { λ g. record {
      replaced = g.replaced.items;
      settled = g.settled.items;
      unsettled = g.unsettled;
    } };
}

impl GapList {
    /// Returns no gaps. It takes no memory.
    pub fn new(alloc: Global) -> GapList
        ensures { result ≡ no_gaps }
    {
        GapList {
            replaced: Vec::new(alloc),
            settled: Vec::new(alloc),
            unsettled: OpenRuns::new(alloc),
        }
    }

    /// Notes an accepted reading. `old` is what its meter read before. The reading settles the run
    /// of its nozzle, if there is one. A replaced meter gets its line.
    pub fn accept(
        &mut self,
        place: &RowPlace,
        old: Millilitres,
        row: &Row,
        told: &MeterReading,
    ) -> Result<(), NoMemory>
        ensures { OnOk result (self.new ≡ gaps_accepted place.now old row.now told.now self.old) }
    {
        self.unsettled
            .settle_into(&mut self.settled, place.row, told)?;
        add_replaced(&mut self.replaced, place, old, row)
    }

    /// Notes a refused reading. `expected` is the reading that the site has. If the meter was the
    /// reason of the refusal, the reading joins the run of its nozzle, or begins one.
    pub fn refuse(
        &mut self,
        place: &RowPlace,
        expected: Millilitres,
        refusal: Refusal,
        told: &MeterReading,
    ) -> Result<(), NoMemory>
        ensures { OnOk result
            (self.new ≡ gaps_refused place.now expected refusal told.now self.old) }
    {
        self.unsettled.refuse(place, expected, refusal, told)
    }

    /// Returns the replaced meters, in the order of their rows.
    pub fn replaced(&self) -> &[Replacement]
        ensures { result.now ≡ self.now.replaced }
    {
        &self.replaced
    }

    /// Returns the settled runs, in the order of the rows that settled them.
    pub fn settled(&self) -> &[RefusedRun]
        ensures { result.now ≡ self.now.settled }
    {
        &self.settled
    }

    /// Returns the open runs, in the order in which they began.
    pub fn unsettled(&self) -> &[RefusedRun]
        ensures { result.now ≡ self.now.unsettled }
    {
        self.unsettled.as_slice()
    }
}
