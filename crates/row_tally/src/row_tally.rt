//! The tally of rows.

ghost use Rattle.std.specs.Prelude.{◌≡◌, ◌-◌, ◌<◌, IfOk, OnOk};
ghost use Rattle.site_base.specs.Refusals.{refusal_number};
ghost use Rattle.site_base.specs.declared.limits.TheConstants.{NOZZLE_CELLS};
ghost use Rattle.meters.specs.Places.{nozzle_cell};
ghost use Rattle.row_tally.specs.declared.row_tally.TheConstants.{REFUSAL_CELLS};
ghost use Rattle.row_tally.specs.Readings.{replaced_told};
ghost use Rattle.row_tally.specs.Tally.{counted, last_reading, no_rows, refused_as, replaced};
ghost use Rattle.row_tally.specs.Tally.{replaced_with};
ghost use Rattle.row_tally.specs.Tally.{told_accepted, told_refused, told_with, with_row};

use crate::meter_jumps::MeterJumps;
use crate::meter_reading::MeterReading;
use crate::moments::Moments;
use crate::open_runs::OpenRuns;
use crate::refused_run::{RefusedRun, RowPlace};
use meters::Meters;
use site_base::{
    Event, FpNo, Millilitres, NOZZLE_CELLS, NOZZLES, NoMemory, NozzleNo, Refusal, Reply, Row,
    SiteConfig,
};
use stamps::Stamp;
use std::alloc::Global;
use std::marker::Model;

/// The number of refusals. Their numbers are 1 to this one.
pub const REFUSAL_CELLS: usize = 25;

/// What rows tell that their site doesn't.
#[derive(Drop)]
pub struct RowTally {
    /// What each meter read before the first row.
    opening: Meters,
    /// So many rows were read.
    rows: u64,
    /// The last reading of each nozzle that a row tells and that was accepted, in its cell.
    readings: [Option<Millilitres>; NOZZLE_CELLS],
    /// How far the readings of each nozzle jumped as its meter was replaced, in its cell.
    jumps: [MeterJumps; NOZZLE_CELLS],
    /// So many rows were refused with refusal n: in cell n - 1.
    refused: [u64; REFUSAL_CELLS],
    runs: OpenRuns,
    moments: Moments,
}

impl Model for RowTally {
    ghost use Rattle.row_tally.specs.Tally.{Tally};

    ghost Value = { Tally };

    ghost view = { λ t. record {
      opening = t.opening;
      rows = t.rows;
      readings = t.readings;
      jumps = t.jumps;
      refused = t.refused;
      runs = t.runs;
      moments = t.moments;
    } };
}

impl RowTally {
    /// Returns a tally at the opening of this site, which has read no row.
    pub fn open(alloc: Global, config: &SiteConfig) -> Result<RowTally, NoMemory>
        ensures { IfOk result (λ tally. tally ≡ no_rows config.now) }
    {
        let opening = Meters::try_new(alloc, config)?;
        Ok(RowTally {
            opening,
            rows: 0,
            readings: [None; NOZZLE_CELLS],
            jumps: [MeterJumps::NONE; NOZZLE_CELLS],
            refused: [0; REFUSAL_CELLS],
            runs: OpenRuns::new(alloc),
            moments: Moments::new(alloc),
        })
    }

    /// Reads the next row, which has this time. After `NoMemory` no further row can be read.
    pub fn read(&mut self, time: &Option<Stamp>, row: &Row) -> Result<(), NoMemory>
        ensures { OnOk result (self.new ≡ with_row time.now row.now self.old) }
    {
        let place = RowPlace {
            row: self.rows,
            at: *time,
        };
        self.moments.read(time, row)?;
        self.note_replacement(&row.event, &row.reply);
        if let Some(told) = MeterReading::told_by(&row.event) {
            self.note(&place, &row.reply, &told)?;
        }
        self.count(&row.reply);
        Ok(())
    }

    /// Returns the number of rows that were read, counted up to 2^64 - 1.
    pub fn rows(&self) -> u64
        ensures { result ≡ self.now.rows }
    {
        self.rows
    }

    /// Returns the number of rows that were refused with the refusal of this number, counted up to
    /// 2^64 - 1.
    pub fn refused_as(&self, number: u8) -> u64
        ensures { result ≡ refused_as number self.now }
    {
        match self.refused.get(usize::from(number.saturating_sub(1))) {
            Some(count) => *count,
            None => 0,
        }
    }

    /// Returns the open gaps: the runs of refused readings that no accepted reading of the nozzle
    /// has settled yet, in the order in which they began.
    pub fn open_runs(&self) -> &[RefusedRun]
        ensures { result.now ≡ self.now.runs }
    {
        self.runs.as_slice()
    }

    /// Returns the jumps of each nozzle that a site can have, in the order of points, and of their
    /// nozzles: how far its readings jumped when its meter was replaced.
    pub fn jumps(&self) -> &[MeterJumps]
        ensures { result.now ≡ self.now.jumps }
    {
        &self.jumps
    }

    /// Returns when points called, when the transactions that aren't cleared yet were sold, and
    /// when shifts were opened and closed.
    pub fn moments(&self) -> &Moments
        ensures { result.now ≡ self.now.moments }
    {
        &self.moments
    }

    /// This event was replied to so: it may replace a meter.
    fn note_replacement(&mut self, event: &Event, reply: &Reply)
        ensures { self.new ≡ replaced_with (replaced_told event.now) reply.now self.old }
    {
        match (MeterReading::begun_by(event), reply) {
            (Some(told), Ok(_)) => self.replace(&told),
            _ => {}
        }
    }

    /// A meter was replaced, and begins with this reading.
    fn replace(&mut self, told: &MeterReading)
        ensures { self.new ≡ replaced told.now self.old }
    {
        let before = self.last_reading(told.point, told.nozzle);
        let cell = cell_of(told.point, told.nozzle);
        self.jumps[cell] = self.jumps[cell].with(before, told.reading);
    }

    /// A row with a reading was replied to so.
    fn note(&mut self, place: &RowPlace, reply: &Reply, told: &MeterReading) -> Result<(), NoMemory>
        ensures { OnOk result (self.new ≡ told_with place.now told.now reply.now self.old) }
    {
        match reply {
            Ok(_) => {
                self.accept(place, told);
                Ok(())
            }
            Err(refusal) => self.refuse(place, *refusal, told),
        }
    }

    /// A reading was accepted: it settles the run of its nozzle.
    fn accept(&mut self, place: &RowPlace, told: &MeterReading)
        ensures { self.new ≡ told_accepted told.now self.old }
    {
        let _ = self.runs.settle(place.row, told);
        self.readings[cell_of(told.point, told.nozzle)] = Some(told.reading);
    }

    /// A reading was refused.
    fn refuse(
        &mut self,
        place: &RowPlace,
        refusal: Refusal,
        told: &MeterReading,
    ) -> Result<(), NoMemory>
        ensures { OnOk result (self.new ≡ told_refused place.now refusal told.now self.old) }
    {
        let expected = self.last_reading(told.point, told.nozzle);
        self.runs.refuse(place, expected, refusal, told)
    }

    /// What the meter of this nozzle read last. Of a nozzle that isn't there, 0.
    fn last_reading(&self, p: FpNo, n: NozzleNo) -> Millilitres
        ensures { result ≡ last_reading p n self.now }
    {
        match self.readings[cell_of(p, n)] {
            Some(reading) => reading,
            None => match self.opening.last(p, n) {
                Some(reading) => reading,
                None => Millilitres::new(0).unwrap(),
            },
        }
    }

    /// A row was replied to so.
    fn count(&mut self, reply: &Reply)
        ensures { self.new ≡ counted reply.now self.old }
    {
        self.rows = self.rows.saturating_add(1);
        if let Err(refusal) = reply {
            let cell = refusal_cell(refusal);
            self.refused[cell] = self.refused[cell].saturating_add(1);
        }
    }
}

/// The cell of nozzle n of point p among those of all nozzles that a site can have.
fn cell_of(p: FpNo, n: NozzleNo) -> usize
    ensures place { result ≡ nozzle_cell p n }
    ensures within { result < NOZZLE_CELLS }
{
    (usize::from(p.get()) - 1) * usize::from(NOZZLES) + (usize::from(n.get()) - 1)
}

/// The cell in which a refusal is counted.
fn refusal_cell(refusal: &Refusal) -> usize
    ensures place { result ≡ refusal_number refusal.now - 1 }
    ensures within { result < REFUSAL_CELLS }
{
    usize::from(refusal.number()) - 1
}
