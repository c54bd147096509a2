//! The sales of a site, with the figures of its shifts.

ghost use Rattle.std.specs.Prelude.{◌≡◌, ℕ, ◌+◌, ◌-◌, ◌^◌, ◌<◌, ◌≤◌, ◌==◌, [], ◌∷◌, ◌++◌, None};
ghost use Rattle.std.specs.Prelude.{Some, true, false, is_some, length, sum_by, OnOk, OnErr, IfErr};
ghost use Rattle.std.specs.Prelude.{IfSome};
ghost use Rattle.transaction_buffer.specs.declared.shelf.TheConstants.{UNPAID_LIMIT};
ghost use Rattle.site_base.specs.declared.numbers.TheConstants.{GREATEST_SHIFT};
ghost use Rattle.site_base.specs.Members.{member};
ghost use Rattle.transaction_buffer.specs.Figures.{figure_of};
ghost use Rattle.transaction_buffer.specs.FoundSales.{IsPlaced, key_of};
ghost use Rattle.transaction_buffer.specs.Rooms.{one_taken, room_at};
ghost use Rattle.transaction_buffer.specs.Sales.{HasNoneLater, has_sale, is_new, key, new_sale};
ghost use Rattle.transaction_buffer.specs.Sales.{next_number, no_sales, sale_of, view_of_sale};
ghost use Rattle.transaction_buffer.specs.Sales.{unpaid_at};
ghost use Rattle.transaction_buffer.specs.Sales.{with_new};
ghost use Rattle.transaction_buffer.specs.Sums.{volume_by, volume_of};
ghost use Rattle.transaction_buffer.specs.TransactionTable.{after_request, after_sign_off};
ghost use Rattle.transaction_buffer.specs.TransactionTable.{answer_of, refusal_of};
ghost use Rattle.written_site.specs.SiteState.{nothing_drawn};
ghost use Rattle.written_site.specs.SiteStep.{draw_noted};
ghost use Rattle.written_site.specs.ShiftFigures.{cents_by, clears_by, takings_in};
ghost use Rattle.written_site.specs.Volumes.{drawn_of};
ghost use Rattle.site_core.specs.Accounts.{FitsGrant, shift_row};

use shift_ledger::{ShiftBook, ShiftRow};
use site_base::{
    Answer, FpNo, NoMemory, PRODUCT_CELLS, ProductNo, Refusal, Seq, ShiftNo, Status, TILL_CELLS,
    TillNo, TransactionView,
};
use std::alloc::Global;
use std::marker::Model;
use transaction_buffer::{Buffer, Figure, FoundSale, Request, Sale};

/// The sales of a site and the figures of its shifts. By its type the figures are those of the
/// cleared sales and of what tests drew. Contracts see only the sales and the draws.
#[derive(Drop)]
pub struct Accounts {
    sales: Buffer,
    shifts: ShiftBook,
    // The clears of till t in all shifts and their cents stand in cell t - 1.
    tills: [(u64, u64); TILL_CELLS],
    // What tests drew of product q in all shifts stands in cell q - 1.
    drawn: [u64; PRODUCT_CELLS],
}

impl Model for Accounts {
    ghost use Rattle.site_core.specs.Accounts.{Account, IsAccount, account_code, draws_of};

    ghost Value = { Account };

    ghost coded = { account_code };

    ghost view = { λ a. record {
      sales = a.sales.sales;
      rooms = a.sales.rooms;
      drawn = draws_of a.shifts.shifts;
      closes = a.shifts.room;
    } };

    ghost invariant = { λ a. IsAccount a.sales.sales a.shifts.shifts a.tills a.drawn };
}

impl Accounts {
    /// Returns no sale, and shift 1 open with nothing in it. It takes no memory.
    pub fn new(alloc: Global) -> Self
        ensures sales { result.sales ≡ no_sales }
        ensures drawn { result.drawn ≡ nothing_drawn ∷ [] }
    {
        Accounts {
            sales: Buffer::new(alloc),
            shifts: ShiftBook::new(alloc),
            tills: [(0, 0); TILL_CELLS],
            drawn: [0; PRODUCT_CELLS],
        }
    }

    /// Makes the room that one more sale of point p needs. After `NoMemory` nothing has changed.
    pub fn reserve(&mut self, p: FpNo) -> Result<(), NoMemory>
        ensures sales { self.new.sales ≡ self.old.sales }
        ensures drawn { self.new.drawn ≡ self.old.drawn }
        ensures closes { self.new.closes ≡ self.old.closes }
        ensures room { OnOk result (0 < room_at p self.new.rooms) }
        ensures kept { (q : ℕ) → room_at q self.old.rooms ≤ room_at q self.new.rooms }
        ensures err { OnErr result (self.new ≡ self.old) }
    {
        self.sales.reserve(p)
    }

    /// Makes the room that the close of the open shift needs. After `NoMemory` nothing has changed.
    pub fn reserve_close(&mut self) -> Result<(), NoMemory>
        ensures sales { self.new.sales ≡ self.old.sales }
        ensures drawn { self.new.drawn ≡ self.old.drawn }
        ensures rooms { self.new.rooms ≡ self.old.rooms }
        ensures room { OnOk result (0 < self.new.closes) }
        ensures kept { self.old.closes ≤ self.new.closes }
        ensures err { OnErr result (self.new ≡ self.old) }
    {
        self.shifts.reserve()
    }

    /// Returns the number of the open shift.
    pub fn open_shift(&self) -> ShiftNo
        ensures { result ≡ length self.now.drawn }
    {
        self.shifts.open()
    }

    /// Returns how many transactions of point p are unpaid: payable or locked.
    pub fn unpaid(&self, p: FpNo) -> u8
        ensures { result ≡ unpaid_at p self.now.sales }
    {
        self.sales.unpaid(p)
    }

    /// Returns the number of point p's next sale in the open shift; None if there is none left.
    pub fn next_seq(&self, p: FpNo) -> Option<Seq>
        ensures { result ≡ next_number p (length self.now.drawn) self.now.sales }
    {
        self.sales.next_seq(p, self.shifts.open())
    }

    /// Finds the transaction, if there is one.
    pub fn find(&self, p: FpNo, shift: ShiftNo, s: Seq) -> Option<FoundSale>
        ensures there { is_some result ≡ has_sale (key shift p s) self.now.sales }
        ensures key { IfSome result (λ sale. key_of sale ≡ key shift p s) }
        ensures placed { IfSome result (λ sale. IsPlaced sale self.now.sales) }
    {
        self.sales.find(p, shift, s)
    }

    /// Returns the transaction as a read shows it.
    pub fn view(&self, sale: &FoundSale) -> TransactionView
        requires { IsPlaced sale.now self.now.sales }
        ensures { view_of_sale (key_of sale.now) self.now.sales ≡ Some result }
    {
        self.sales.view(sale)
    }

    /// Returns the transaction itself: as it was sold, and its present state.
    pub fn sale(&self, found: &FoundSale) -> Sale
        requires { IsPlaced found.now self.now.sales }
        ensures { sale_of (key_of found.now) self.now.sales ≡ Some result }
    {
        self.sales.sale(found)
    }

    /// Returns why the transaction table would refuse the till's request, if it would.
    pub fn judge(&self, sale: &FoundSale, request: &Request, t: TillNo) -> Result<(), Refusal>
        requires { IsPlaced sale.now self.now.sales }
        ensures accepted { OnOk result (
            refusal_of request.now t (key_of sale.now) self.now.sales ≡ None) }
        ensures refused { IfErr result (λ refusal.
            refusal_of request.now t (key_of sale.now) self.now.sales ≡ Some refusal) }
    {
        self.sales.judge(sale, request, t)
    }

    /// Returns the millilitres of product q in the transactions of this status. Those of all
    /// transactions fit in 64 bits.
    pub fn sum(&self, q: ProductNo, status: Status) -> u64
        ensures value { result ≡ volume_by q status self.now.sales }
        ensures fits { volume_of q self.now.sales < 2 ^ 64 }
    {
        self.sales.sum(q, status)
    }

    /// Returns the millilitres that tests drew of a product in all shifts.
    pub fn drawn_volume(&self, q: ProductNo) -> u64
        ensures { result ≡ drawn_of q self.now.drawn }
    {
        self.drawn[q.cell()]
    }

    /// Sums a figure over the sales themselves, and reads no sum that is kept. It fits in 64 bits.
    pub fn recount(&self, figure: &Figure) -> u64
        requires { figure_of figure.now self.now.sales < 2 ^ 64 }
        ensures { result ≡ figure_of figure.now self.now.sales }
    {
        self.sales.recount(figure)
    }

    /// Sums the millilitres that tests drew of a product over all shifts. They fit in 64 bits.
    pub fn recount_drawn(&self, q: ProductNo) -> u64
        requires { drawn_of q self.now.drawn < 2 ^ 64 }
        ensures { result ≡ drawn_of q self.now.drawn }
    {
        let _ = q.get();
        self.shifts.drawn_volume(q)
    }

    /// Adds a sale of point p in the open shift, and returns its number there. The conditions are
    /// those of the buffer.
    pub fn add(&mut self, p: FpNo, view: TransactionView) -> Seq
        requires room { 0 < room_at p self.old.rooms }
        requires unpaid { unpaid_at p self.old.sales < UNPAID_LIMIT }
        requires number { is_some (next_number p (length self.old.drawn) self.old.sales) ≡ true }
        requires order { HasNoneLater p (length self.old.drawn) self.old.sales }
        requires fits { volume_of view.product self.old.sales + view.volume < 2 ^ 64 }
        requires new { is_new view ≡ true }
        ensures number { next_number p (length self.old.drawn) self.old.sales ≡ Some result }
        ensures sales { self.new.sales
            ≡ with_new p (new_sale (length self.old.drawn) view) self.old.sales }
        ensures drawn { self.new.drawn ≡ self.old.drawn }
        ensures rooms { self.new.rooms ≡ one_taken p self.old.rooms }
        ensures closes { self.new.closes ≡ self.old.closes }
    {
        let shift = self.shifts.open();
        self.sales.add(p, shift, view)
    }

    /// Adds a draw of a test to the open shift: this many millilitres of this product.
    pub fn note_drawn(&mut self, q: ProductNo, volume: u64)
        requires { drawn_of q self.old.drawn + volume < 2 ^ 64 }
        ensures sales { self.new.sales ≡ self.old.sales }
        ensures drawn { self.new.drawn ≡ draw_noted q volume self.old.drawn }
        ensures rooms { self.new.rooms ≡ self.old.rooms }
        ensures closes { self.new.closes ≡ self.old.closes }
    {
        let cell = q.cell();
        self.shifts.note_drawn(q, volume);
        self.drawn[cell] += volume;
    }

    /// Does what the transaction table says of a request that it accepts. A clear counts in the
    /// open shift, whose figures fit in 64 bits with it.
    pub fn grant(&mut self, sale: &FoundSale, request: &Request, t: TillNo) -> Answer
        requires placed { IsPlaced sale.now self.old.sales }
        requires accepted { refusal_of request.now t (key_of sale.now) self.old.sales ≡ None }
        requires fits { FitsGrant request.now t (key_of sale.now) self.old.sales self.old.drawn }
        ensures answer { result ≡ answer_of request.now t (key_of sale.now) self.old.sales }
        ensures sales { self.new.sales
            ≡ after_request request.now t (key_of sale.now) self.old.sales }
        ensures drawn { self.new.drawn ≡ self.old.drawn }
        ensures rooms { self.new.rooms ≡ self.old.rooms }
        ensures closes { self.new.closes ≡ self.old.closes }
    {
        let Request::Clear(_) = request else {
            return self.sales.grant(sale, request, t);
        };
        let view = self.sales.view(sale);
        let cents = view.cents.get();
        self.shifts
            .note_cleared(t, view.product, view.volume.get(), cents);
        let cell = t.cell();
        let (clears, sum) = self.tills[cell];
        self.tills[cell] = (clears + 1, sum + cents);
        self.sales.grant(sale, request, t)
    }

    /// Makes every transaction payable that the till has locked. Every other one stays.
    pub fn release_all(&mut self, t: TillNo)
        ensures sales { self.new.sales ≡ after_sign_off t self.old.sales }
        ensures drawn { self.new.drawn ≡ self.old.drawn }
        ensures rooms { self.new.rooms ≡ self.old.rooms }
        ensures closes { self.new.closes ≡ self.old.closes }
    {
        self.sales.release_all(t);
    }

    /// Closes the open shift, which isn't the last possible one, and opens the next with nothing in
    /// it. Returns the number of the closed shift. Room for the close is reserved; it takes no
    /// memory.
    pub fn close(&mut self) -> ShiftNo
        requires room { 0 < self.old.closes }
        requires next { (length self.old.drawn == GREATEST_SHIFT) ≡ false }
        ensures number { result ≡ length self.old.drawn }
        ensures sales { self.new.sales ≡ self.old.sales }
        ensures drawn { self.new.drawn ≡ self.old.drawn ++ nothing_drawn ∷ [] }
        ensures rooms { self.new.rooms ≡ self.old.rooms }
        ensures closes { self.new.closes ≡ self.old.closes - 1 }
    {
        self.shifts.perform_close()
    }

    /// Returns the figures of shift n, also of the open one; None for a shift to come.
    pub fn shift(&self, n: ShiftNo) -> Option<ShiftRow>
        ensures { result ≡ shift_row n self.now.sales self.now.drawn }
    {
        self.shifts.row(n)
    }

    /// Returns the millilitres that tests drew in shift n, for each product from 1 on; None for a
    /// shift to come.
    pub fn draws(&self, n: ShiftNo) -> Option<[u64; PRODUCT_CELLS]>
        ensures { result ≡ member n self.now.drawn }
    {
        match self.shift(n) {
            Some(row) => Some(row.adjusted),
            None => None,
        }
    }

    /// Returns how many sales the till cleared in all shifts, and their cents.
    pub fn till(&self, t: TillNo) -> (u64, u64)
        ensures { result ≡ (clears_by t self.now.sales, cents_by t self.now.sales) }
    {
        self.tills[t.cell()]
    }

    /// Returns the cents that all tills cleared in the open shift. They fit in 64 bits.
    pub fn takings(&self) -> u64
        requires { takings_in (length self.now.drawn) self.now.sales < 2 ^ 64 }
        ensures { result ≡ takings_in (length self.now.drawn) self.now.sales }
    {
        match self.shifts.row(self.shifts.open()) {
            Some(row) => sum_of_cents(&row.tills),
            // The open shift has its figures.
            None => unreachable!(),
        }
    }
}

/// The cents of all these, of each a count and its cents. They fit in 64 bits.
fn sum_of_cents(tills: &[(u64, u64)]) -> u64
    requires { sum_by (λ e. e.1) tills.now < 2 ^ 64 }
    ensures { result ≡ sum_by (λ e. e.1) tills.now }
{
    let mut sum = 0;
    for (_, cents) in tills {
        sum += *cents;
    }
    sum
}
