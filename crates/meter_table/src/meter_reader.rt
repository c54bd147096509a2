//! Reads the counters of nozzles from rows.

ghost use Rattle.std.specs.Prelude.{◌≡◌, ◌≤◌, ◌++◌, ◌∷◌, [], List, length, map, IfOk, OnErr, OnOk};
ghost use Rattle.site_base.specs.declared.limits.TheConstants.{NOZZLES};
ghost use Rattle.site_base.specs.declared.row.Row.{Row as RowFacts};
ghost use Rattle.site_base.specs.Configured.{Configured};
ghost use Rattle.meters.specs.Nozzles.{nozzles_of_point};
ghost use Rattle.site_core.specs.Views.{HasRoom};
ghost use Rattle.written_site.specs.SiteState.{SiteState, opening};
ghost use Rattle.written_site.specs.SiteStep.{site_after};
ghost use Rattle.meter_table.specs.Counting.{AreCountable, AreThere, AreWithin, begun, counted_at};
ghost use Rattle.meter_table.specs.Counting.{is_of_point, is_test_at, with_row};
ghost use Rattle.meter_table.specs.Figures.{HasRead, all_figures, figures_of};

use crate::figures::NozzleFigures;
use site_base::{FpNo, NoMemory, NozzleNo, PointEntry, Row, SiteConfig};
use site_core::Site;
use std::alloc::Global;
use std::marker::Model;

/// Counts what the rows of a day or a history do at each nozzle, one row after another, with a site
/// of its own that takes the rows' events.
#[derive(Drop)]
pub struct MeterReader {
    site: Site,
    // Of each configured nozzle, in configured order.
    figures: Vec<NozzleFigures>,
}

impl Model for MeterReader {
    ghost use Rattle.std.specs.Coded.{coded_ℕ, codes};
    ghost use Rattle.std.specs.Ordering.{nat_cmp};
    ghost use Rattle.std.specs.FinMap as finite;
    ghost use Rattle.std.specs.FinSet as set;
    ghost use Rattle.transaction_buffer.specs.Codes.{sales_code};
    ghost use Rattle.meter_table.specs.Counting.{AreWithin};
    ghost use Rattle.meter_table.specs.Figures.{MetersRead};

    ghost Value = { MetersRead };

    ghost coded = { Prim.hlevel (
      codes,
      finite.code {R = nat_cmp} coded_ℕ coded_ℕ,
      set.code {R = nat_cmp} coded_ℕ,
      sales_code,
    ) };

    ghost view = { λ m. record { site = m.site.site; figures = m.figures.items } };

    ghost invariant = { λ m. AreWithin m.site.site m.figures.items };
}

impl MeterReader {
    /// Returns a reader at the opening of this site, which has read no row.
    pub fn open(alloc: Global, config: &SiteConfig) -> Result<MeterReader, NoMemory>
        ensures { IfOk result (HasRead config.now (opening config.now) []) }
    {
        let site = Site::try_open(alloc, config)?;
        let figures = opening_figures(alloc, &site, config)?;
        Ok(MeterReader { site, figures })
    }

    /// Reads the next row, and adds it to the nozzles' figures. After `NoMemory` nothing has
    /// changed.
    pub fn read(&mut self, row: &Row) -> Result<(), NoMemory>
        ensures read { OnOk result ((c : Configured) (start : SiteState) (rows : List RowFacts)
            → HasRead c start rows self.old → HasRead c start (rows ++ row.now ∷ []) self.new) }
        ensures err { OnErr result (self.new ≡ self.old) }
    {
        self.site.prepare(row.actor, &row.event)?;
        count_row(&mut self.site, &mut self.figures, row);
        Ok(())
    }

    /// Begins again at the present site, as if no row had been read.
    pub fn begin_here(&mut self)
        ensures { (c : Configured) (start : SiteState) (rows : List RowFacts)
            → HasRead c start rows self.old → HasRead c self.old.site [] self.new }
    {
        // What the site keeps is sound.
        self.site.is_sound();
        begin_again(&mut self.figures);
    }

    /// Returns the figures of each configured nozzle, in configured order.
    pub fn into_figures(self) -> Vec<NozzleFigures>
        ensures { result.items ≡ self.figures }
    {
        self.figures
    }
}

/// The figures of each configured nozzle at the opening site.
fn opening_figures(
    alloc: Global,
    site: &Site,
    config: &SiteConfig,
) -> Result<Vec<NozzleFigures>, NoMemory>
    requires { site.now.site ≡ opening config.now }
    ensures figures { IfOk result (λ figures.
        figures.items ≡ all_figures config.now site.now.site []) }
    ensures within { IfOk result (λ figures. AreWithin site.now.site figures.items) }
{
    // What the site keeps is sound.
    site.is_sound();
    let mut figures = Vec::new(alloc);
    for entry in config.points() {
        add_point(site, entry, &mut figures)?;
    }
    Ok(figures)
}

/// Adds the figures of a point's nozzles: nozzle n is the nth.
fn add_point(
    site: &Site,
    entry: &PointEntry,
    figures: &mut Vec<NozzleFigures>,
) -> Result<(), NoMemory>
    requires few { length entry.now.nozzles ≤ NOZZLES }
    requires there { AreThere site.now.site.nozzles (nozzles_of_point entry.now) }
    ensures { OnOk result (figures.new.items
        ≡ figures.old.items ++ map (figures_of site.now.site []) (nozzles_of_point entry.now)) }
{
    for (place, nozzle) in entry.nozzles.as_slice().iter().enumerate() {
        let Some(number) = NozzleNo::new(place as u8 + 1) else {
            unreachable!();
        };
        figures.push(NozzleFigures::begin(site, entry.number, number, nozzle))?;
    }
    Ok(())
}

/// The figures begin again where they end.
fn begin_again(figures: &mut [NozzleFigures])
    ensures { figures.new ≡ map begun figures.old }
{
    for entry in figures.iter_mut() {
        entry.begin_here();
    }
}

/// The site takes the row's event, and the figures have the row.
fn count_row(site: &mut Site, figures: &mut [NozzleFigures], row: &Row)
    requires room { HasRoom site.old.room row.now.event }
    requires within { AreWithin site.old.site figures.old }
    ensures site { site.new.site ≡ site_after site.old.site row.now.actor row.now.event }
    ensures within { AreWithin site.new.site figures.new }
    ensures figures { figures.new ≡ map (with_row site.old.site row.now) figures.old }
{
    // What the site keeps is sound, and the row's reading in its range.
    site.is_sound();
    let _ = row.event.reading();
    let point = row.event.point();
    let test = is_test(site, &point);
    let told = Row {
        actor: row.actor,
        event: row.event,
        reply: site.step(row.actor, row.event),
    };
    count_at(site, &point, &told, test, figures);
}

/// Counts a row, after which the site is this one, at the nozzles of its point. No point has none.
fn count_at(site: &Site, point: &Option<FpNo>, row: &Row, test: bool, figures: &mut [NozzleFigures])
    requires { AreCountable point.now site.now.site row.now figures.old }
    ensures { figures.new ≡ map (counted_at point.now site.now.site row.now test) figures.old }
{
    for entry in figures.iter_mut() {
        if is_of_point(entry.point, point) {
            entry.count(site, row, test);
        }
    }
}

/// Is this the point that a row names?
fn is_of_point(point: FpNo, named: &Option<FpNo>) -> bool
    ensures { result ≡ is_of_point named.now point }
{
    match named {
        Some(named) => point == *named,
        None => false,
    }
}

/// Is the point released for a test? No point isn't.
fn is_test(site: &Site, point: &Option<FpNo>) -> bool
    ensures { result ≡ is_test_at site.now.site point.now }
{
    match point {
        Some(point) => match site.point(*point) {
            Some(view) => view.test,
            None => false,
        },
        None => false,
    }
}
