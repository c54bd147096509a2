//! The meter of one nozzle.

ghost use Rattle.std.specs.Prelude.{◌≡◌, ◌<◌, ◌≤◌, None, Some, OnOk, IfOk, IfErr};
ghost use Rattle.site_base.specs.declared.limits.TheConstants.{NOZZLE_CELLS};
ghost use Rattle.site_base.specs.declared.amounts.TheConstants.{GREATEST_READING};
ghost use Rattle.site_base.specs.declared.limits.TheConstants.{NOZZLES, POINTS};
ghost use Rattle.meters.specs.declared.meter.TheConstants.{REPLACEMENT_LIMIT};
ghost use Rattle.meters.specs.MeteredVolumes.{volume_metered, most_of_a_nozzle};
ghost use Rattle.meters.specs.Nozzles.{opening_nozzle, read_at, replaced_at, IsMetered};
ghost use Rattle.meters.specs.Places.{nozzle_cell};
ghost use Rattle.meters.specs.Reports.{growth_of, report_refusal};

use crate::place::cell_of;
use crate::report::Report;
use site_base::{FpNo, GROWTH_LIMIT, Millilitres, NozzleEntry, NozzleNo, ProductNo, Refusal};
use std::marker::Model;

/// How often a nozzle's meter may be replaced.
pub const REPLACEMENT_LIMIT: u8 = 99;

/// The meter of a nozzle, and what the nozzle's earlier meters have metered. Its last reading is
/// never below the one that it began with.
#[derive(Drop)]
pub struct Meter {
    point: FpNo,
    nozzle: NozzleNo,
    product: ProductNo,
    began: Millilitres,
    last: Millilitres,
    replaced: u8,
    earlier: u64,
}

impl Model for Meter {
    ghost use Rattle.meters.specs.Nozzles.{Nozzle, IsMetered};

    ghost Value = { Nozzle };

    ghost view = { λ m. record {
      point = m.point;
      number = m.nozzle;
      product = m.product;
      began = m.began;
      last = m.last;
      replaced = m.replaced;
      earlier = m.earlier;
    } };

    ghost invariant = { λ m. IsMetered (record {
      point = m.point;
      number = m.nozzle;
      product = m.product;
      began = m.began;
      last = m.last;
      replaced = m.replaced;
      earlier = m.earlier;
    }) };
}

impl Meter {
    /// Returns the meter of a nozzle when the site opens.
    pub fn at_opening(point: FpNo, nozzle: NozzleNo, entry: &NozzleEntry) -> Self
        ensures value { result ≡ opening_nozzle point nozzle entry.now }
        ensures bounds { IsMetered result }
    {
        let _ = entry.reading.get();
        Meter {
            point,
            nozzle,
            product: entry.product,
            began: entry.reading,
            last: entry.reading,
            replaced: 0,
            earlier: 0,
        }
    }

    /// Returns the cell of its nozzle among those of all nozzles that a site can have.
    pub fn cell(&self) -> usize
        ensures place { result ≡ nozzle_cell self.now.point self.now.number }
        ensures within { result < NOZZLE_CELLS }
        ensures point { (1 ≤ self.now.point) × (self.now.point ≤ POINTS) }
        ensures nozzle { (1 ≤ self.now.number) × (self.now.number ≤ NOZZLES) }
    {
        cell_of(self.point, self.nozzle)
    }

    /// Returns the product that the nozzle delivers.
    pub fn product(&self) -> ProductNo
        ensures { result ≡ self.now.product }
    {
        self.product
    }

    /// Returns its last reading.
    pub fn last(&self) -> Millilitres
        ensures { result ≡ self.now.last }
    {
        self.last
    }

    /// Returns how often it was replaced.
    pub fn replacements(&self) -> u8
        ensures { result ≡ self.now.replaced }
    {
        self.replaced
    }

    /// Returns the millilitres that the nozzle has metered since the site opened, with this meter
    /// and with its earlier meters.
    pub fn metered_volume(&self) -> u64
        ensures value { result ≡ volume_metered self.now }
        ensures range { result ≤ most_of_a_nozzle }
    {
        (self.last.get() - self.began.get()) + self.earlier
    }

    /// Returns how much a report adds to the last reading, or why the report is refused.
    pub fn check(&self, reading: Millilitres, report: &Report) -> Result<u64, Refusal>
        ensures accepted { OnOk result (report_refusal report.now self.now.last reading ≡ None) }
        ensures growth { IfOk result (λ growth. growth ≡ growth_of self.now.last reading) }
        ensures refused { IfErr result (λ refusal.
            report_refusal report.now self.now.last reading ≡ Some refusal) }
    {
        let last = self.last.get();
        let read = reading.get();
        match report {
            Report::Still => {
                if read != last {
                    return Err(Refusal::MeterGap(self.last));
                }
            }
            Report::Growing => {
                if read < last {
                    return Err(Refusal::MeterBack(self.last));
                }
                if GROWTH_LIMIT < read - last {
                    return Err(Refusal::MeterJump);
                }
            }
        }
        Ok(read - last)
    }

    /// Takes a reading that isn't below the last one, and returns by how much it is above it.
    pub fn advance(&mut self, reading: Millilitres) -> u64
        requires { self.old.last ≤ reading }
        ensures meter { self.new ≡ read_at reading self.old }
        ensures growth { result ≡ growth_of self.old.last reading }
        ensures range { reading ≤ GREATEST_READING }
    {
        let growth = reading.get() - self.last.get();
        self.last = reading;
        growth
    }

    /// Replaces the meter by one that begins with this reading.
    pub fn replace(&mut self, reading: Millilitres)
        requires { self.old.replaced < REPLACEMENT_LIMIT }
        ensures meter { self.new ≡ replaced_at reading self.old }
        ensures range { reading ≤ GREATEST_READING }
    {
        let _ = reading.get();
        self.earlier += self.last.get() - self.began.get();
        self.replaced += 1;
        self.began = reading;
        self.last = self.began;
    }
}
