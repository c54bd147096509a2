//! What was counted at one nozzle.

ghost use Rattle.std.specs.Prelude.{◌≡◌, ◌+◌, ◌≤◌, [], Some, false, true};
ghost use Rattle.meters.specs.Nozzles.{has_nozzle, opening_nozzle};
ghost use Rattle.nozzle_figures.specs.NozzleMoves.{running_by_nozzle};
ghost use Rattle.written_site.specs.MeterLaws.{read_said};
ghost use Rattle.meter_table.specs.Counting.{HaveRoom, IsCountable, begun, counted, flowed};
ghost use Rattle.meter_table.specs.Counting.{is_replaced_in, moved, refused_once};
ghost use Rattle.meter_table.specs.Figures.{figures_of, refused_in};

use site_base::{Event, FpNo, Millilitres, NozzleEntry, NozzleNo, ProductNo, Refusal, Row};
use site_core::Site;

/// What rows counted at one nozzle. Volumes and readings are in millilitres.
#[derive(Clone, Copy, Debug, PartialEq, Eq)]
pub struct NozzleFigures {
    /// Its fuelling point.
    pub point: FpNo,
    /// Its number at the point.
    pub nozzle: NozzleNo,
    /// The product that it delivers.
    pub product: ProductNo,
    /// The meter's reading before the rows.
    pub opening: Millilitres,
    /// The meter's reading after them.
    pub closing: Millilitres,
    /// What flowed through the meter.
    pub metered: u64,
    /// What was sold of it.
    pub sold: u64,
    /// What tests drew of it.
    pub drawn: u64,
    /// What is in a fuelling that is in progress after the rows.
    pub running: u64,
    /// How often the meter was replaced.
    pub replaced: u64,
    /// By how much new meters began above the old ones' last readings.
    pub raised: u64,
    /// By how much they began below them.
    pub lowered: u64,
    /// How many reported readings were refused because of the meter, with 17, 18 or 19.
    pub refused: u64,
    /// The greatest of the refused readings.
    pub highest: Option<Millilitres>,
}

impl NozzleFigures {
    /// The figures of a nozzle of this site before any row.
    pub(crate) fn begin(
        site: &Site,
        point: FpNo,
        nozzle: NozzleNo,
        entry: &NozzleEntry,
    ) -> NozzleFigures
        requires { has_nozzle point nozzle site.now.site.nozzles ≡ true }
        ensures { result ≡ figures_of site.now.site [] (opening_nozzle point nozzle entry.now) }
    {
        let Some(reading) = site.reading(point, nozzle) else {
            unreachable!();
        };
        NozzleFigures {
            point,
            nozzle,
            product: entry.product,
            opening: reading,
            closing: reading,
            metered: 0,
            sold: 0,
            drawn: 0,
            running: running_volume(site, point, nozzle),
            replaced: 0,
            raised: 0,
            lowered: 0,
            refused: 0,
            highest: None,
        }
    }

    /// Begins again where the rows ended that it has counted.
    pub(crate) fn begin_here(&mut self)
        ensures { self.new ≡ begun self.old }
    {
        *self = NozzleFigures {
            opening: self.closing,
            metered: 0,
            sold: 0,
            drawn: 0,
            replaced: 0,
            raised: 0,
            lowered: 0,
            refused: 0,
            highest: None,
            ..*self
        };
    }

    /// Counts a row, after which the site is this one. A fuelling that was under way before it was
    /// a test, or a sale to be.
    pub(crate) fn count(&mut self, site: &Site, row: &Row, test: bool)
        requires { IsCountable site.now.site row.now self.old }
        ensures { self.new ≡ counted site.now.site row.now test self.old }
    {
        let Some(reading) = site.reading(self.point, self.nozzle) else {
            unreachable!();
        };
        let left = running_volume(site, self.point, self.nozzle);
        self.move_to(self.is_replaced_in(row), test, reading, left);
        if let Some(reading) = self.refused_in(row) {
            self.refuse(reading);
        }
    }

    /// Counts what moved by the nozzle: its meter was replaced or not, and reads this, and so much
    /// is left in the fuelling under way.
    fn move_to(&mut self, replaced: bool, test: bool, reading: Millilitres, left: u64)
        requires room { HaveRoom self.old }
        requires above { replaced ≡ false → self.old.closing ≤ reading }
        requires left { left ≤ self.old.running + flowed replaced reading self.old }
        ensures { self.new ≡ moved replaced test reading left self.old }
    {
        let (before, after) = (self.closing.get(), reading.get());
        if replaced {
            self.replaced += 1;
            self.raised += after.saturating_sub(before);
            self.lowered += before.saturating_sub(after);
        }
        let flowed = if replaced { 0 } else { after - before };
        self.metered += flowed;
        let gone = self.running + flowed - left;
        if test {
            self.drawn += gone;
        } else {
            self.sold += gone;
        }
        self.running = left;
        self.closing = reading;
    }

    /// Counts a reading that the meter refused.
    fn refuse(&mut self, reading: Millilitres)
        ensures { self.new ≡ refused_once (Some reading) self.old }
    {
        self.refused = self.refused.saturating_add(1);
        self.highest = match self.highest {
            Some(highest) if reading.get() < highest.get() => Some(highest),
            _ => Some(reading),
        };
    }

    /// Did the row replace the meter?
    fn is_replaced_in(&self, row: &Row) -> bool
        ensures { result ≡ is_replaced_in self.now.point self.now.nozzle row.now }
    {
        match row.event {
            Event::ReplaceMeter(p, n, _) => {
                row.reply.is_ok() && p == self.point && n == self.nozzle
            }
            _ => false,
        }
    }

    /// The reading of the nozzle that the row reports, if the meter refused it.
    fn refused_in(&self, row: &Row) -> Option<Millilitres>
        ensures { result ≡ refused_in self.now.point self.now.nozzle row.now }
    {
        match row.reply {
            Err(Refusal::MeterGap(_) | Refusal::MeterBack(_) | Refusal::MeterJump) => {
                self.reading_in(&row.event)
            }
            _ => None,
        }
    }

    /// The reading of the nozzle that the event reports or notes, if it does.
    fn reading_in(&self, event: &Event) -> Option<Millilitres>
        ensures { result ≡ read_said self.now.point self.now.nozzle event.now }
    {
        match event {
            Event::ReplaceMeter(p, n, reading)
            | Event::Lift(p, n, reading)
            | Event::Flow(p, n, reading)
            | Event::HangUp(p, n, reading)
                if *p == self.point && *n == self.nozzle => { Some(*reading) }
            _ => None,
        }
    }
}

/// The millilitres of the fuelling under way by a nozzle.
fn running_volume(site: &Site, p: FpNo, n: NozzleNo) -> u64
    ensures { result ≡ running_by_nozzle p n site.now.site }
{
    // What the site keeps of a point is sound.
    site.is_sound();
    match site.point(p) {
        Some(view) => match view.out {
            Some(out) if out == n => view.volume,
            _ => 0,
        },
        None => 0,
    }
}
