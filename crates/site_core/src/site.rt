//! The site, as its callers see it.

ghost use Rattle.std.specs.Prelude.{◌≡◌, ℕ, ◌≤◌, true, Ok, OnOk, OnErr, IfOk};
ghost use Rattle.meters.specs.Nozzles.{last_of};
ghost use Rattle.transaction_buffer.specs.Rooms.{room_at};
ghost use Rattle.transaction_buffer.specs.Sales.{key, sale_of};
ghost use Rattle.written_site.specs.SiteState.{opening, is_signed_on, open_shift, view_point};
ghost use Rattle.written_site.specs.SiteState.{view_sale};
ghost use Rattle.written_site.specs.ShiftFigures.{product_totals, till_totals};
ghost use Rattle.site_core.specs.Accounts.{shift_row};
ghost use Rattle.written_site.specs.SiteStep.{Steps};
ghost use Rattle.written_site.specs.Sound.{Sound};
ghost use Rattle.site_core.specs.Views.{HasRoom, product_lifted, room_left};

use crate::ranges::are_fit;
use crate::site_parts::SiteParts;
use shift_ledger::ShiftRow;
use site_base::{
    Actor, Answer, Event, FpNo, Listing, Millilitres, NoMemory, NozzleNo, PointView, ProductNo,
    Reply, SaleId, Seq, ShiftNo, SiteConfig, TillNo, Totals, TransactionView,
};
use std::alloc::Global;
use std::marker::Model;
use transaction_buffer::Sale;

/// The one-thread site.
#[derive(Drop)]
pub struct Site {
    parts: SiteParts,
}

impl Model for Site {
    ghost use Rattle.std.specs.Coded.{coded_ℕ, codes};
    ghost use Rattle.std.specs.Ordering.{nat_cmp};
    ghost use Rattle.std.specs.FinMap as finite;
    ghost use Rattle.std.specs.FinSet as set;
    ghost use Rattle.transaction_buffer.specs.Codes.{sales_code};
    ghost use Rattle.site_core.specs.Views.{Seen};

    ghost Value = { Seen };

    ghost coded = { Prim.hlevel (
      codes,
      finite.code {R = nat_cmp} coded_ℕ coded_ℕ,
      set.code {R = nat_cmp} coded_ℕ,
      sales_code,
    ) };

    ghost use Rattle.site_core.specs.SiteParts.{site_of, room_of};

    ghost view = { λ s. record { site = site_of s.parts; room = room_of s.parts } };

    ghost use Rattle.written_site.specs.Sound.{Sound};

    ghost invariant = { λ s. Sound (site_of s.parts) };
}

impl Site {
    /// Returns the opening site of this configuration: every point is closed, and nobody is signed
    /// on.
    pub fn try_open(alloc: Global, config: &SiteConfig) -> Result<Site, NoMemory>
        ensures { IfOk result (λ s. s.site ≡ opening config.now) }
    {
        let parts = SiteParts::try_open(alloc, config)?;
        // What the site keeps is sound, since the configuration is fit.
        are_fit(config, &parts.prices);
        Ok(Site { parts })
    }

    /// States that this site has what every site keeps: see `Sound`.
    pub fn is_sound(&self)
        ensures { Sound self.now.site }
    {
        let _ = &self.parts;
    }

    /// Makes the room that this event needs, so that its step takes no memory. The site stays, and
    /// so does all room that was made before. After `NoMemory` nothing has changed.
    #[inline(always)]
    pub fn prepare(&mut self, actor: Actor, event: &Event) -> Result<(), NoMemory>
        ensures site { self.new.site ≡ self.old.site }
        ensures room { OnOk result (HasRoom self.new.room event.now) }
        ensures kept { (p : ℕ) → room_at p self.old.room.sales ≤ room_at p self.new.room.sales }
        ensures kept_close { self.old.room.closes ≤ self.new.room.closes }
        ensures err { OnErr result (self.new ≡ self.old) }
    {
        let _ = actor;
        self.parts.prepare(event)
    }

    /// Takes the written step: returns the reply to this event of this actor, and leads to the next
    /// site. After a refusal the site is as it was. `prepare` has to have made the room for the
    /// event; the step takes no memory. A sale uses one place of its point's room, and the close of
    /// a shift uses one of the closes. All other room stays.
    #[inline(always)]
    pub fn step(&mut self, actor: Actor, event: Event) -> Reply
        requires room { HasRoom self.old.room event }
        ensures step { Steps self.old.site actor event self.new.site result }
        ensures room { self.new.room ≡ room_left event result self.old.room }
    {
        // The range of a reading that the event carries.
        let _ = event.reading();
        self.parts.step(actor, &event)
    }

    /// Signs off a till that is signed on, as the written step does. It takes no memory, and all
    /// room stays.
    pub fn sign_off(&mut self, t: TillNo)
        requires { is_signed_on self.old.site t ≡ true }
        ensures step { Steps self.old.site (Actor.Till t) Event.SignOff self.new.site
            (Ok Answer.Done) }
        ensures room { self.new.room ≡ self.old.room }
    {
        self.parts.leave(t);
    }

    /// Is this till signed on?
    pub fn signed_on(&self, t: TillNo) -> bool
        ensures { result ≡ is_signed_on self.now.site t }
    {
        self.parts.is_signed_on(t)
    }

    /// Returns the transaction with this name of a till, as a read shows it; None if there is none.
    pub fn transaction(&self, p: FpNo, id: SaleId) -> Option<TransactionView>
        ensures { result ≡ view_sale self.now.site p id }
    {
        self.parts.view_sale(p, &id)
    }

    /// Returns the sale of this point in this shift with this number, as it was sold, with its
    /// present state; None if there is no such sale.
    pub fn sale(&self, p: FpNo, shift: ShiftNo, number: Seq) -> Option<Sale>
        ensures { result ≡ sale_of (key shift p number) self.now.site.sales }
    {
        self.parts.sale(p, shift, number)
    }

    /// Returns the product of the nozzle that is out at the point; None if no nozzle is out.
    pub fn product_out(&self, p: FpNo) -> Option<ProductNo>
        ensures { result ≡ product_lifted self.now.site p }
    {
        self.parts.product_out(p)
    }

    /// Returns the number of the open shift.
    pub fn open_shift(&self) -> ShiftNo
        ensures { result ≡ open_shift self.now.site }
    {
        self.parts.open_shift()
    }

    /// Returns the figures of shift n, also of the open one: for each till its clears and their
    /// cents; for each product the millilitres that were cleared, their cents, and the millilitres
    /// that tests drew. None for a shift to come.
    pub fn shift(&self, n: ShiftNo) -> Option<ShiftRow>
        ensures { result ≡ shift_row n self.now.site.sales self.now.site.drawn }
    {
        self.parts.accounts.shift(n)
    }

    /// Returns the same as `shift`, but counted only from the site's lists. No kept figure of the
    /// shift's clears is read.
    pub fn counted_shift(&self, n: ShiftNo) -> Option<ShiftRow>
        ensures { result ≡ shift_row n self.now.site.sales self.now.site.drawn }
    {
        self.parts.counted_shift(n)
    }

    /// Returns the totals of the site, with this number of rows: for each product its volumes, in
    /// configured order, and for each till what it cleared in all shifts. They are kept, and only
    /// read here.
    pub fn totals(&self, alloc: Global, rows: u64) -> Result<Totals, NoMemory>
        ensures rows { IfOk result (λ totals. totals.rows ≡ rows) }
        ensures products { IfOk result (λ totals.
            totals.products ≡ product_totals self.now.site) }
        ensures tills { IfOk result (λ totals. totals.tills ≡ till_totals self.now.site) }
    {
        Ok(Totals {
            rows,
            products: Listing::from(self.parts.product_totals(alloc)?),
            tills: Listing::from(self.parts.till_totals(alloc)?),
        })
    }

    /// Returns the same as `totals`, but counted only from the site's lists. Nobody else has the
    /// site, and no total that it kept is read.
    pub fn count_totals(self, alloc: Global, count: u64) -> Result<Totals, NoMemory>
        ensures rows { IfOk result (λ totals. totals.rows ≡ count) }
        ensures products { IfOk result (λ totals.
            totals.products ≡ product_totals self.site) }
        ensures tills { IfOk result (λ totals. totals.tills ≡ till_totals self.site) }
    {
        Ok(Totals {
            rows: count,
            products: Listing::from(self.parts.recount_products(alloc)?),
            tills: Listing::from(self.parts.recount_tills(alloc)?),
        })
    }

    /// Returns the point as a read shows it; None if the site has no such point.
    pub fn point(&self, p: FpNo) -> Option<PointView>
        ensures { result ≡ view_point self.now.site p }
    {
        self.parts.view_point(p)
    }

    /// Returns the last reading of nozzle n of point p; None if the site has no such nozzle.
    pub fn reading(&self, p: FpNo, n: NozzleNo) -> Option<Millilitres>
        ensures { result ≡ last_of p n self.now.site.nozzles }
    {
        self.parts.reading(p, n)
    }
}
