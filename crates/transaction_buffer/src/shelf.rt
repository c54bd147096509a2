//! The sales of one fuelling point.

ghost use Rattle.std.specs.Prelude.{◌≡◌, ℕ, ◌+◌, ◌-◌, ◌^◌, ◌<◌, ◌≤◌, [], ◌∷◌, ◌++◌, true, IfSome};
ghost use Rattle.std.specs.Prelude.{length, map, OnErr, OnOk, slice_index_or, slice_set};
ghost use Rattle.site_base.specs.declared.numbers.TheConstants.{GREATEST_SHIFT};
ghost use Rattle.site_base.specs.declared.numbers.TheConstants.{GREATEST_SEQ};
ghost use Rattle.transaction_buffer.specs.declared.shelf.TheConstants.{UNPAID_LIMIT};
ghost use Rattle.transaction_buffer.specs.Sales.{Sale, is_unpaid, made_in, next_after};
ghost use Rattle.transaction_buffer.specs.Sales.{unpaid_among};
ghost use Rattle.transaction_buffer.specs.Shelves.{NoneAfter, no_span, place_in, shifts_of};
ghost use Rattle.transaction_buffer.specs.TransactionTable.{unlock_all_of};
ghost use Rattle.transaction_buffer.specs.UnpaidPlaces.{figure_at, AreUnpaid, IsLetGoAt};
ghost use Rattle.transaction_buffer.specs.Figures.{figure_in};
ghost use Rattle.transaction_buffer.specs.KeptSums.{AreMoved, CanMove};
ghost use Rattle.transaction_buffer.specs.SignOffs.{IsLetGo};
ghost use Rattle.transaction_buffer.specs.LockedSales.{locker_at, no_lockers, AreTold};
ghost use Rattle.transaction_buffer.specs.Sums.{sum_among, volume_locked_by};

use crate::figure::Figure;
use crate::locked_points::Lockers;
use crate::recount::recount_among;
use crate::sale::Sale;
use crate::span::Span;
use crate::sums::Sums;
use crate::unpaid_places::UnpaidPlaces;
use site_base::{GREATEST_SHIFT, NoMemory, Seq, ShiftNo, TillNo};
use std::alloc::Global;
use std::marker::Model;

/// The most unpaid transactions (payable or locked) of a fuelling point.
pub const UNPAID_LIMIT: u8 = 2;

/// The sales of a fuelling point in the order in which they were made. At most `UNPAID_LIMIT` of
/// them are unpaid. A sale is found at its place, without a search.
#[derive(Drop)]
pub struct Shelf {
    sales: Vec<Sale>,
    // Where the sales of shift h stand is told in cell h - 1.
    spans: Vec<Span>,
    // The places of the unpaid sales.
    unpaid: UnpaidPlaces,
}

impl Model for Shelf {
    ghost use Rattle.std.specs.Prelude.{◌-◌, ◌==◌, if◌then◌else◌, vec_len, vec_capacity};
    ghost use Rattle.site_base.specs.declared.numbers.TheConstants.{GREATEST_SHIFT};
    ghost use Rattle.transaction_buffer.specs.LockedSales.{lockers_at};
    ghost use Rattle.transaction_buffer.specs.Shelves.{Shelf as ShelfFacts, IsShelf};

    ghost Value = { ShelfFacts };

    ghost view = { λ x. record {
      sales = x.sales.items;
      room = if vec_len x.spans == GREATEST_SHIFT then vec_capacity x.sales - vec_len x.sales
          else 0;
      lockers = lockers_at x.unpaid.one x.unpaid.other x.sales.items;
    } };

    ghost invariant = { λ x. IsShelf x.sales.items x.spans.items x.unpaid.one x.unpaid.other };
}

impl Shelf {
    /// Returns a shelf without sales. It takes no memory.
    pub fn new(alloc: Global) -> Self
        ensures sales { result.sales ≡ [] }
        ensures lockers { result.lockers ≡ no_lockers }
    {
        Shelf {
            sales: Vec::new(alloc),
            spans: Vec::new(alloc),
            unpaid: UnpaidPlaces::NONE,
        }
    }

    /// Makes room for one more sale of any shift. If memory runs out, the sales and the room for
    /// them stay as they are. The room for the sale is made before that for the shifts, and its
    /// memory stays if the second allocation fails.
    pub fn reserve(&mut self) -> Result<(), NoMemory>
        ensures sales { self.new.sales ≡ self.old.sales }
        ensures lockers { self.new.lockers ≡ self.old.lockers }
        ensures room { OnOk result (0 < self.new.room) }
        ensures kept { self.old.room ≤ self.new.room }
        ensures err { OnErr result (self.new.room ≡ self.old.room) }
    {
        self.sales.reserve(1)?;
        fill(&mut self.spans)?;
        Ok(())
    }

    /// Returns the number of the next sale in this shift; None if there is none left.
    pub fn next_seq(&self, shift: ShiftNo) -> Option<Seq>
        ensures { result ≡ next_after (made_in shift self.now.sales) }
    {
        let span = span_of(&self.spans, shift);
        Seq::new(span.count + 1)
    }

    /// Returns the number of unpaid sales.
    pub fn unpaid(&self) -> u8
        ensures value { result ≡ unpaid_among self.now.sales }
        ensures range { result ≤ UNPAID_LIMIT }
    {
        self.unpaid.count()
    }

    /// Returns the place of the sale of this shift with this number, if there is one.
    pub fn find(&self, shift: ShiftNo, number: Seq) -> Option<usize>
        ensures { result ≡ place_in shift number (shifts_of self.now.sales) }
    {
        let span = span_of(&self.spans, shift);
        let number = number.get();
        if number <= span.count {
            Some(span.first + (usize::from(number) - 1))
        } else {
            None
        }
    }

    /// Returns the sale at this place.
    pub fn at(&self, place: usize) -> Sale
        requires { place < length self.now.sales }
        ensures { (d : Sale) → result ≡ slice_index_or self.now.sales place d }
    {
        self.sales[place]
    }

    /// Adds a sale. Room for it has to be reserved, no sale may be of a later shift, its shift has
    /// to have a number left, and fewer than `UNPAID_LIMIT` sales may be unpaid.
    pub fn push(&mut self, sale: Sale)
        requires room { 0 < self.old.room }
        requires order { NoneAfter sale.shift (shifts_of self.old.sales) }
        requires number { made_in sale.shift self.old.sales < GREATEST_SEQ }
        requires unpaid { unpaid_among self.old.sales < UNPAID_LIMIT }
        ensures sales { self.new.sales ≡ self.old.sales ++ sale ∷ [] }
        ensures room { self.new.room + 1 ≡ self.old.room }
    {
        let cell = usize::from(sale.shift().get()) - 1;
        let span = self.spans[cell];
        let place = self.sales.len();
        self.spans[cell] = span.with_one_more(place);
        self.unpaid = self.unpaid.after_sale(place, sale.is_unpaid());
        self.sales.push_reserved(sale);
    }

    /// Replaces an unpaid sale by one of the same shift.
    pub fn put(&mut self, place: usize, sale: Sale)
        requires within { place < length self.old.sales }
        requires unpaid { (d : Sale)
            → is_unpaid (slice_index_or self.old.sales place d).standing ≡ true }
        requires shift { (d : Sale)
            → (slice_index_or self.old.sales place d).shift ≡ sale.shift }
        ensures sales { self.new.sales ≡ slice_set self.old.sales place sale }
        ensures room { self.new.room ≡ self.old.room }
    {
        self.unpaid = self.unpaid.after_change(place, sale.is_unpaid());
        self.sales[place] = sale;
    }

    /// Returns the tills that have locked the sales at its two unpaid places. No other till has
    /// locked a sale here.
    pub fn lockers(&self) -> Lockers
        ensures value { result ≡ self.now.lockers }
        ensures told { AreTold self.now.sales self.now.lockers }
    {
        let sales: &[Sale] = &self.sales;
        Lockers {
            one: locker_at(sales, self.unpaid.one),
            other: locker_at(sales, self.unpaid.other),
        }
    }

    /// Makes the sales that this till has locked payable.
    pub fn unlock_all_of(&mut self, t: TillNo)
        ensures { IsLetGo t self.old self.new }
    {
        let unpaid = self.unpaid;
        unlock_unpaid(&mut self.sales, unpaid, t);
    }

    /// Moves the volume of what this till has locked from the locked sums to the payable ones.
    pub fn unlock_sums(&self, sums: &mut Sums, t: TillNo)
        requires { CanMove (λ q. sum_among (volume_locked_by q t) self.now.sales) sums.old }
        ensures { AreMoved (λ q. sum_among (volume_locked_by q t) self.now.sales) sums.old
            sums.new }
    {
        let sales: &[Sale] = &self.sales;
        unlock_sum_at(sales, self.unpaid.one, sums, t);
        unlock_sum_at(sales, self.unpaid.other, sums, t);
    }

    /// Sums the figure over its sales. It fits in 64 bits.
    pub fn recount(&self, figure: &Figure) -> u64
        requires { sum_among (figure_in figure.now) self.now.sales < 2 ^ 64 }
        ensures { result ≡ sum_among (figure_in figure.now) self.now.sales }
    {
        recount_among(&self.sales, figure)
    }
}

/// Makes a cell for each shift that has none yet: without sales.
fn fill(spans: &mut Vec<Span>) -> Result<(), NoMemory>
    requires { length spans.old.items ≤ GREATEST_SHIFT }
    ensures same { (i : ℕ) → slice_index_or spans.new.items i no_span
        ≡ slice_index_or spans.old.items i no_span }
    ensures few { length spans.new.items ≤ GREATEST_SHIFT }
    ensures more { length spans.old.items ≤ length spans.new.items }
    ensures err { OnErr result (length spans.new.items < GREATEST_SHIFT) }
    ensures full { OnOk result (length spans.new.items ≡ GREATEST_SHIFT) }
{
    while spans.len() < usize::from(GREATEST_SHIFT) {
        spans.push(Span::NONE)?;
    }
    Ok(())
}

/// The span of this shift.
fn span_of(spans: &[Span], shift: ShiftNo) -> Span
    ensures span { result ≡ slice_index_or spans.now (shift - 1) no_span }
    ensures range { (1 ≤ shift) × (shift ≤ GREATEST_SHIFT) }
{
    match spans.get(usize::from(shift.get()) - 1) {
        Some(span) => *span,
        None => Span::NONE,
    }
}

/// Makes the sales at these places payable, if this till has locked them: no other is unpaid.
fn unlock_unpaid(sales: &mut [Sale], unpaid: UnpaidPlaces, t: TillNo)
    requires { AreUnpaid sales.old unpaid.one unpaid.other }
    ensures { sales.new ≡ map (unlock_all_of t) sales.old }
{
    unlock_at(sales, unpaid.one, t);
    unlock_at(sales, unpaid.other, t);
}

/// Makes the sale at this place payable, if this till has locked it.
fn unlock_at(sales: &mut [Sale], place: Option<usize>, t: TillNo)
    requires { IfSome place (λ i. i < length sales.old) }
    ensures { IsLetGoAt t place sales.old sales.new }
{
    if let Some(i) = place {
        sales[i] = sales[i].unlock_all_of(t);
    }
}

/// The till that has locked the sale at this place.
fn locker_at(sales: &[Sale], place: Option<usize>) -> Option<TillNo>
    ensures { result ≡ locker_at place sales.now }
{
    match sales.get(place?) {
        Some(sale) => sale.locker(),
        None => None,
    }
}

/// Moves the volume of the sale at this place from the locked sums to the payable ones, if this
/// till has locked it.
fn unlock_sum_at(sales: &[Sale], place: Option<usize>, sums: &mut Sums, t: TillNo)
    requires { CanMove (λ q. figure_at (volume_locked_by q t) place sales.now) sums.old }
    ensures { AreMoved (λ q. figure_at (volume_locked_by q t) place sales.now) sums.old sums.new }
{
    if let Some(i) = place
        && let Some(sale) = sales.get(i)
    {
        sums.unlock_all_of(sale, t);
    }
}
