//! Reads the gaps in what meters counted from rows.

ghost use Rattle.std.specs.Prelude.{◌≡◌, IfOk, OnOk};
ghost use Rattle.meters.specs.Nozzles.{reading_of};
ghost use Rattle.written_site.specs.SiteState.{opening};
ghost use Rattle.written_site.specs.SiteStep.{site_after};
ghost use Rattle.meter_table.specs.Gaps.{gaps_with, no_gaps};

use crate::gap_list::GapList;
use row_tally::{MeterReading, RowPlace};
use site_base::{Millilitres, NoMemory, Row, SiteConfig};
use site_core::Site;
use std::alloc::Global;
use std::marker::Model;

/// Reads the replaced meters and the refused readings of a day or a history, one row after another,
/// with a site of its own that takes the rows' events.
#[derive(Drop)]
pub struct GapReader {
    site: Site,
    gaps: GapList,
}

impl Model for GapReader {
    ghost use Rattle.std.specs.Coded.{coded_ℕ, codes};
    ghost use Rattle.std.specs.Ordering.{nat_cmp};
    ghost use Rattle.std.specs.FinMap as finite;
    ghost use Rattle.std.specs.FinSet as set;
    ghost use Rattle.transaction_buffer.specs.Codes.{sales_code};
    ghost use Rattle.meter_table.specs.Gaps.{GapsRead};

    ghost Value = { GapsRead };

    ghost coded = { Prim.hlevel (
      codes,
      finite.code {R = nat_cmp} coded_ℕ coded_ℕ,
      set.code {R = nat_cmp} coded_ℕ,
      sales_code,
    ) };

    ghost view = { λ m. record {
      site = m.site.site;
      gaps = m.gaps;
    } };
}

impl GapReader {
    /// Returns a reader at the opening of this site, which has read no row.
    pub fn open(alloc: Global, config: &SiteConfig) -> Result<GapReader, NoMemory>
        ensures { IfOk result (λ m. m
            ≡ record {
              site = opening config.now;
              gaps = no_gaps;
            }) }
    {
        let site = Site::try_open(alloc, config)?;
        Ok(GapReader {
            site,
            gaps: GapList::new(alloc),
        })
    }

    /// Reads the next row, which is at this place. A meter that it replaces gets its line, and a
    /// reading that is refused because of the meter joins a run.
    pub fn read(&mut self, place: &RowPlace, row: &Row) -> Result<(), NoMemory>
        ensures site { OnOk result
            (self.new.site ≡ site_after self.old.site row.now.actor row.now.event) }
        ensures gaps { OnOk result
            (self.new.gaps ≡ gaps_with place.now self.old.site row.now self.old.gaps) }
    {
        self.site.prepare(row.actor, &row.event)?;
        match &MeterReading::told_by(&row.event) {
            Some(told) => {
                let expected = last_reading(&self.site, told);
                match self.site.step(row.actor, row.event) {
                    Ok(_) => self.gaps.accept(place, expected, row, told),
                    Err(refusal) => self.gaps.refuse(place, expected, refusal, told),
                }
            }
            None => {
                let _ = self.site.step(row.actor, row.event);
                Ok(())
            }
        }
    }

    /// Begins again at the present site, as if no row had been read.
    pub fn begin_here(&mut self, alloc: Global)
        ensures site { self.new.site ≡ self.old.site }
        ensures gaps { self.new.gaps ≡ no_gaps }
    {
        self.gaps = GapList::new(alloc);
    }

    /// Returns the gaps of the rows that were read.
    pub fn into_gaps(self) -> GapList
        ensures { result ≡ self.gaps }
    {
        self.gaps
    }
}

/// What the meter of this reading's nozzle read last. Of a nozzle that isn't there, 0.
fn last_reading(site: &Site, told: &MeterReading) -> Millilitres
    ensures { result ≡ reading_of told.now.point told.now.nozzle site.now.site.nozzles }
{
    let last = site.reading(told.point, told.nozzle);
    last.unwrap_or(Millilitres::new(0).unwrap())
}
