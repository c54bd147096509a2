//! The meters of a site.

ghost use Rattle.std.specs.Prelude.{◌≡◌, ◌<◌, ◌≤◌, ◌+◌, ◌++◌, true, None, Some, OnOk, IfOk, IfErr};
ghost use Rattle.std.specs.Prelude.{IfSome, is_some, length};
ghost use Rattle.site_base.specs.declared.limits.TheConstants.{NOZZLES};
ghost use Rattle.meters.specs.declared.meter.TheConstants.{REPLACEMENT_LIMIT};
ghost use Rattle.meters.specs.declared.report.Report.TheVariants.{Growing};
ghost use Rattle.meters.specs.Nozzles.{opening_nozzles, nozzles_of_point, product_of, last_of};
ghost use Rattle.meters.specs.Nozzles.{replacements_of, has_nozzle, reading_of, times_replaced};
ghost use Rattle.meters.specs.Nozzles.{with_last, with_meter, AreNozzles, EachMetered};
ghost use Rattle.meters.specs.MeteredVolumes.{most_of_a_site, product_total, metered_by};
ghost use Rattle.meters.specs.MeteredVolumes.{every_product};
ghost use Rattle.meters.specs.Places.{IsPlace};
ghost use Rattle.meters.specs.Reports.{growth_of, report_refusal};

use crate::meter::Meter;
use crate::place::{cell_of, places_of};
use crate::recount::recount;
use crate::report::Report;
use site_base::{
    FpNo, Millilitres, NOZZLE_CELLS, NoMemory, NozzleNo, PRODUCT_CELLS, PointEntry, ProductNo,
    Refusal, SiteConfig,
};
use std::alloc::Global;
use std::marker::Model;

/// The meters of a site's nozzles, in configured order. An operation on a nozzle or a product costs
/// the same however many points there are.
#[derive(Drop)]
pub struct Meters {
    meters: Vec<Meter>,
    // The place of each nozzle's meter stands in the nozzle's cell.
    places: [Option<usize>; NOZZLE_CELLS],
    // What the nozzles of product q have metered stands in cell q - 1.
    totals: [u64; PRODUCT_CELLS],
}

impl Model for Meters {
    ghost use Rattle.std.specs.Prelude.{List};
    ghost use Rattle.meters.specs.Nozzles.{Nozzle};
    ghost use Rattle.meters.specs.Places.{AreKept};

    ghost Value = { List Nozzle };

    ghost view = { λ m. m.meters.items };

    ghost invariant = { λ m. AreKept m.meters.items m.places m.totals };
}

impl Meters {
    /// Returns the meters of the site's nozzles when it opens: each begins with its opening
    /// reading, and none was replaced.
    pub fn try_new(alloc: Global, config: &SiteConfig) -> Result<Self, NoMemory>
        ensures { IfOk result (λ meters. meters ≡ opening_nozzles config.now) }
    {
        let mut meters = Vec::new(alloc);
        for entry in config.points() {
            add_point(&mut meters, entry)?;
        }
        let places = places_of(&meters);
        Ok(Meters {
            meters,
            places,
            totals: [0; PRODUCT_CELLS],
        })
    }

    /// Is there a nozzle n of point p?
    pub fn contains(&self, p: FpNo, n: NozzleNo) -> bool
        ensures { result ≡ has_nozzle p n self.now }
    {
        self.place(p, n).is_some()
    }

    /// Returns the product of nozzle n of point p; None if there is no such nozzle.
    pub fn product(&self, p: FpNo, n: NozzleNo) -> Option<ProductNo>
        ensures { result ≡ product_of p n self.now }
    {
        match self.place(p, n) {
            Some(place) => {
                let meter = &self.meters[place];
                Some(meter.product())
            }
            None => None,
        }
    }

    /// Returns the last reading of nozzle n of point p; None if there is no such nozzle. No last
    /// reading is below the one with which its meter began.
    pub fn last(&self, p: FpNo, n: NozzleNo) -> Option<Millilitres>
        ensures value { result ≡ last_of p n self.now }
        ensures bounds { AreNozzles self.now }
    {
        match self.place(p, n) {
            Some(place) => {
                let meter = &self.meters[place];
                Some(meter.last())
            }
            None => None,
        }
    }

    /// Returns how often the meter of nozzle n of point p was replaced; None if there is no such
    /// nozzle.
    pub fn replacements(&self, p: FpNo, n: NozzleNo) -> Option<u8>
        ensures { result ≡ replacements_of p n self.now }
    {
        match self.place(p, n) {
            Some(place) => {
                let meter = &self.meters[place];
                Some(meter.replacements())
            }
            None => None,
        }
    }

    /// Returns how much a report of nozzle n of point p, which exists, adds to the nozzle's last
    /// reading, in millilitres. A `Still` report that differs from the last reading is refused with
    /// `MeterGap`, which names the expected reading. A `Growing` report is refused with
    /// `MeterBack`, which names the last reading, if it is less than that, and with `MeterJump` if
    /// it is more than `GROWTH_LIMIT` above it. No meter moves.
    pub fn check(
        &self,
        p: FpNo,
        n: NozzleNo,
        reading: Millilitres,
        report: Report,
    ) -> Result<u64, Refusal>
        requires there { has_nozzle p n self.now ≡ true }
        ensures accepted { OnOk result (
            report_refusal report (reading_of p n self.now) reading ≡ None) }
        ensures growth { IfOk result (λ growth.
            growth ≡ growth_of (reading_of p n self.now) reading) }
        ensures refused { IfErr result (λ refusal.
            report_refusal report (reading_of p n self.now) reading ≡ Some refusal) }
        ensures bounds { AreNozzles self.now }
    {
        let Some(place) = self.place(p, n) else {
            unreachable!();
        };
        let meter = &self.meters[place];
        meter.check(reading, &report)
    }

    /// Takes a reading of nozzle n of point p, which exists, as its last one. A `Growing` report of
    /// it would be accepted. No other meter moves.
    pub fn advance(&mut self, p: FpNo, n: NozzleNo, reading: Millilitres)
        requires there { has_nozzle p n self.old ≡ true }
        requires accepted { report_refusal Growing (reading_of p n self.old) reading ≡ None }
        ensures { self.new ≡ with_last p n reading self.old }
    {
        let Some(place) = self.place(p, n) else {
            unreachable!();
        };
        let meter = &mut self.meters[place];
        let product = meter.product();
        let growth = meter.advance(reading);
        self.totals[product.cell()] += growth;
    }

    /// Replaces the meter of nozzle n of point p, which exists, by one that begins with this
    /// reading. The meter was replaced fewer than `REPLACEMENT_LIMIT` times. What the nozzle has
    /// metered stays, and no other meter moves.
    pub fn replace(&mut self, p: FpNo, n: NozzleNo, reading: Millilitres)
        requires there { has_nozzle p n self.old ≡ true }
        requires fewer { times_replaced p n self.old < REPLACEMENT_LIMIT }
        ensures { self.new ≡ with_meter p n reading self.old }
    {
        let Some(place) = self.place(p, n) else {
            unreachable!();
        };
        let meter = &mut self.meters[place];
        meter.replace(reading);
    }

    /// Returns what the nozzles of product q have metered since the site opened, in millilitres:
    /// the sum of what their meters and their earlier meters have; 0 if no nozzle delivers q. What
    /// the nozzles of all products have metered is at most what a site can meter.
    pub fn product_total(&self, q: ProductNo) -> u64
        ensures total { result ≡ product_total q self.now }
        ensures range { result ≤ most_of_a_site }
        ensures bound { metered_by every_product self.now ≤ most_of_a_site }
    {
        self.totals[q.cell()]
    }

    /// Returns the same as `product_total`, summed from the nozzles' own rows. No total that is
    /// kept is read.
    pub fn recount(&self, q: ProductNo) -> u64
        ensures { result ≡ product_total q self.now }
    {
        recount(&self.meters, q)
    }

    /// The place of the meter of nozzle n of point p, from its cell.
    fn place(&self, p: FpNo, n: NozzleNo) -> Option<usize>
        ensures found { IfSome result (IsPlace p n self.now) }
        ensures there { is_some result ≡ has_nozzle p n self.now }
    {
        self.places[cell_of(p, n)]
    }
}

/// Adds the meters of a point's nozzles: nozzle n is the nth.
fn add_point(meters: &mut Vec<Meter>, entry: &PointEntry) -> Result<(), NoMemory>
    requires most { length entry.now.nozzles ≤ NOZZLES }
    requires bounds { EachMetered meters.old.items }
    ensures added { OnOk result (
        meters.new.items ≡ meters.old.items ++ nozzles_of_point entry.now) }
    ensures few { OnOk result (length meters.new.items ≤ length meters.old.items + NOZZLES) }
    ensures bounds { OnOk result (EachMetered meters.new.items) }
{
    for (place, nozzle) in entry.nozzles.as_slice().iter().enumerate() {
        let Some(number) = NozzleNo::new(place as u8 + 1) else {
            unreachable!();
        };
        meters.push(Meter::at_opening(entry.number, number, nozzle))?;
    }
    Ok(())
}
