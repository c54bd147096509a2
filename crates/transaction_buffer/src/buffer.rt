//! The transaction buffer of a site.

ghost use Rattle.std.specs.Prelude.{◌≡◌, ◌≢◌, ℕ, ◌+◌, ◌^◌, ◌<◌, ◌≤◌, true, Some, None, is_some};
ghost use Rattle.std.specs.Prelude.{length, IfErr, IfSome, OnErr, OnOk};
ghost use Rattle.site_base.specs.declared.limits.TheConstants.{POINT_CELLS};
ghost use Rattle.transaction_buffer.specs.declared.shelf.TheConstants.{UNPAID_LIMIT};
ghost use Rattle.transaction_buffer.specs.Sales.{key, no_sales, HasNoneLater, has_sale, sale_of};
ghost use Rattle.transaction_buffer.specs.Sales.{next_number, unpaid_at, with_new, is_new};
ghost use Rattle.transaction_buffer.specs.Sales.{new_sale, view_of_sale};
ghost use Rattle.transaction_buffer.specs.Requests.{Asked};
ghost use Rattle.transaction_buffer.specs.Figures.{figure_of};
ghost use Rattle.transaction_buffer.specs.FoundSales.{key_of, IsPlaced};
ghost use Rattle.transaction_buffer.specs.SignOffs.{AreLetGo};
ghost use Rattle.transaction_buffer.specs.TransactionTable.{after_request, after_sign_off};
ghost use Rattle.transaction_buffer.specs.TransactionTable.{answer_of, refusal_of};
ghost use Rattle.transaction_buffer.specs.Sums.{volume_of, volume_by};
ghost use Rattle.transaction_buffer.specs.Rooms.{one_taken, room_at};
ghost use Rattle.transaction_buffer.specs.Shelves.{sales_on};
ghost use Rattle.transaction_buffer.specs.KeptSums.{AreSums};

use crate::figure::Figure;
use crate::found_sale::FoundSale;
use crate::locked_points::LockedPoints;
use crate::recount::recount_on;
use crate::request::Request;
use crate::sale::Sale;
use crate::shelf::Shelf;
use crate::sums::Sums;
use site_base::{
    Answer, FpNo, NoMemory, POINT_CELLS, PointSet, ProductNo, Refusal, Seq, ShiftNo, Status,
    TillNo, TransactionView,
};
use std::alloc::Global;
use std::array;
use std::marker::Model;

/// The transactions of a site's fuelling points. The name of a transaction is the shift in which it
/// was sold, its point, and its number there in that shift. Contracts see the finite map from the
/// points that have sold to their sales in the order in which they were made, and for each point
/// the number of further sales for which there is room. The volume of a product in all transactions
/// fits in 64 bits.
#[derive(Drop)]
pub struct Buffer {
    // The shelf of point p stands in cell p - 1.
    shelves: [Shelf; POINT_CELLS],
    // What stands on all shelves.
    sums: Sums,
    // The points of which each till has locked a sale.
    locked: LockedPoints,
}

impl Model for Buffer {
    ghost use Rattle.transaction_buffer.specs.Codes.{buffered_code};
    ghost use Rattle.transaction_buffer.specs.Rooms.{Buffered};
    ghost use Rattle.transaction_buffer.specs.Shelves.{sales_on, rooms_on};

    ghost Value = { Buffered };

    ghost coded = { buffered_code };

    ghost view = { λ b. record { sales = sales_on b.shelves; rooms = rooms_on b.shelves } };

    ghost use Rattle.transaction_buffer.specs.KeptSales.{IsKept};

    ghost invariant = { λ b. IsKept b.shelves b.sums b.locked };
}

impl Buffer {
    /// Returns an empty buffer: no point has sold anything. It takes no memory.
    pub fn new(alloc: Global) -> Self
        ensures { result.sales ≡ no_sales }
    {
        Buffer {
            shelves: array::from_fn(|_| Shelf::new(alloc)),
            sums: Sums::new(),
            locked: LockedPoints::new(),
        }
    }

    /// Makes the room that the next sale of point p needs. The sales stay, and so does the room of
    /// every other point. If memory runs out, nothing changes.
    pub fn reserve(&mut self, p: FpNo) -> Result<(), NoMemory>
        ensures sales { self.new.sales ≡ self.old.sales }
        ensures room { OnOk result (0 < room_at p self.new.rooms) }
        ensures kept { (q : ℕ) → room_at q self.old.rooms ≤ room_at q self.new.rooms }
        ensures others { (q : ℕ) → q ≢ p
            → room_at q self.new.rooms ≡ room_at q self.old.rooms }
        ensures err { OnErr result (self.new ≡ self.old) }
    {
        let shelf = &mut self.shelves[p.cell()];
        shelf.reserve()
    }

    /// Returns how many transactions of point p are unpaid: payable or locked.
    pub fn unpaid(&self, p: FpNo) -> u8
        ensures value { result ≡ unpaid_at p self.now.sales }
        ensures range { result ≤ UNPAID_LIMIT }
    {
        let shelf = &self.shelves[p.cell()];
        shelf.unpaid()
    }

    /// Returns the number of point p's next sale in a shift: one more than the number of sales that
    /// it has made there, so that no number is used twice in a shift. None after `GREATEST_SEQ`
    /// sales.
    pub fn next_seq(&self, p: FpNo, shift: ShiftNo) -> Option<Seq>
        ensures { result ≡ next_number p shift self.now.sales }
    {
        let shelf = &self.shelves[p.cell()];
        shelf.next_seq(shift)
    }

    /// Adds a sale of point p in a shift, and returns its number there. The sale is payable if the
    /// view names no till, and locked by the till that it names. The caller has reserved room for
    /// the sale. Fewer than `UNPAID_LIMIT` transactions of the point are unpaid, the shift has a
    /// next number, and no sale of the point is of a later shift. The volumes of all sales of the
    /// product fit in 64 bits with this one. No other transaction changes. The cents are the
    /// view's: the buffer computes none. It takes no memory.
    pub fn add(&mut self, p: FpNo, shift: ShiftNo, view: TransactionView) -> Seq
        requires room { 0 < room_at p self.old.rooms }
        requires unpaid { unpaid_at p self.old.sales < UNPAID_LIMIT }
        requires number { is_some (next_number p shift self.old.sales) ≡ true }
        requires order { HasNoneLater p shift self.old.sales }
        requires fits { volume_of view.product self.old.sales + view.volume < 2 ^ 64 }
        requires new { is_new view ≡ true }
        ensures number { next_number p shift self.old.sales ≡ Some result }
        ensures sales { self.new.sales ≡ with_new p (new_sale shift view) self.old.sales }
        ensures rooms { self.new.rooms ≡ one_taken p self.old.rooms }
    {
        let sale = Sale::new(shift, &view);
        let shelf = &mut self.shelves[p.cell()];
        let seq = shelf.next_seq(shift).unwrap();
        let before = shelf.lockers();
        shelf.push(sale);
        let after = shelf.lockers();
        self.sums.add(&sale);
        self.locked.note(p, before, after);
        seq
    }

    /// Finds the place of the transaction; None if there is none.
    pub fn find(&self, p: FpNo, shift: ShiftNo, s: Seq) -> Option<FoundSale>
        ensures there { is_some result ≡ has_sale (key shift p s) self.now.sales }
        ensures key { IfSome result (λ found. key_of found ≡ key shift p s) }
        ensures placed { IfSome result (λ found. IsPlaced found self.now.sales) }
    {
        let shelf = &self.shelves[p.cell()];
        match shelf.find(shift, s) {
            Some(place) => Some(FoundSale {
                shift,
                point: p,
                number: s,
                place,
            }),
            None => None,
        }
    }

    /// Returns the transaction itself: as it was sold, and its present state.
    pub fn sale(&self, found: &FoundSale) -> Sale
        requires { IsPlaced found.now self.now.sales }
        ensures { sale_of (key_of found.now) self.now.sales ≡ Some result }
    {
        let shelf = &self.shelves[found.point.cell()];
        shelf.at(found.place)
    }

    /// Returns the transaction as a read shows it.
    pub fn view(&self, found: &FoundSale) -> TransactionView
        requires placed { IsPlaced found.now self.now.sales }
        ensures { view_of_sale (key_of found.now) self.now.sales ≡ Some result }
    {
        let sale = self.sale(found);
        sale.view()
    }

    /// Returns why the till's request for the transaction would be refused, if it would:
    /// `AlreadyCleared` if a till has cleared it, `LockedByOther` if another till has locked it,
    /// and `NotLocked` if none has, and the request isn't to lock it.
    pub fn judge(&self, found: &FoundSale, request: &Request, t: TillNo) -> Result<(), Refusal>
        requires placed { IsPlaced found.now self.now.sales }
        ensures accepted { OnOk result
            (refusal_of request.now t (key_of found.now) self.now.sales ≡ None) }
        ensures refused { IfErr result (λ refusal.
            refusal_of request.now t (key_of found.now) self.now.sales ≡ Some refusal) }
    {
        let sale = self.sale(found);
        sale.judge(request, t)
    }

    /// Does what the transaction table says of a request that `judge` accepts. It can't be refused.
    pub fn grant(&mut self, found: &FoundSale, request: &Request, t: TillNo) -> Answer
        requires placed { IsPlaced found.now self.old.sales }
        requires accepted { refusal_of request.now t (key_of found.now) self.old.sales ≡ None }
        ensures answer { result ≡ answer_of request.now t (key_of found.now) self.old.sales }
        ensures sales { self.new.sales
            ≡ after_request request.now t (key_of found.now) self.old.sales }
        ensures rooms { self.new.rooms ≡ self.old.rooms }
    {
        let old = self.sale(found);
        let (new, answer) = old.grant(request, t);
        let shelf = &mut self.shelves[found.point.cell()];
        let before = shelf.lockers();
        shelf.put(found.place, new);
        let after = shelf.lockers();
        self.sums.remove(&old);
        self.sums.add(&new);
        self.locked.note(found.point, before, after);
        answer
    }

    /// Locks a transaction for the till, so that no other till can clear it: Locked. If this till
    /// has locked it already, nothing changes. The refusals are `NoSuchTransaction` if there is
    /// none, `AlreadyCleared` if a till has cleared it, and `LockedByOther` if another till has
    /// locked it. They change nothing.
    pub fn lock(&mut self, p: FpNo, shift: ShiftNo, s: Seq, t: TillNo) -> Result<Answer, Refusal>
        ensures asked { Asked Request.Lock t (key shift p s) self.old.sales self.new.sales result }
        ensures rooms { self.new.rooms ≡ self.old.rooms }
    {
        self.ask(p, shift, s, t, &Request::Lock)
    }

    /// Makes a transaction that the till has locked payable again: Unlocked. The refusals are
    /// `NoSuchTransaction` if there is none, `AlreadyCleared` if a till has cleared it,
    /// `LockedByOther` if another till has locked it, and `NotLocked` if none has. They change
    /// nothing.
    pub fn unlock(&mut self, p: FpNo, shift: ShiftNo, s: Seq, t: TillNo) -> Result<Answer, Refusal>
        ensures asked { Asked Request.Unlock t (key shift p s) self.old.sales self.new.sales
            result }
        ensures rooms { self.new.rooms ≡ self.old.rooms }
    {
        self.ask(p, shift, s, t, &Request::Unlock)
    }

    /// Clears a transaction that the till has locked, in the open shift `current`: Cleared, with
    /// the transaction's cents. Nothing changes the transaction any more. The refusals are those of
    /// `unlock`.
    pub fn clear(
        &mut self,
        p: FpNo,
        shift: ShiftNo,
        s: Seq,
        t: TillNo,
        current: ShiftNo,
    ) -> Result<Answer, Refusal>
        ensures asked { Asked (Request.Clear current) t (key shift p s) self.old.sales
            self.new.sales result }
        ensures rooms { self.new.rooms ≡ self.old.rooms }
    {
        self.ask(p, shift, s, t, &Request::Clear(current))
    }

    /// Makes every transaction payable that the till has locked. Every other one stays. This is
    /// what a sign-off does to the transactions.
    pub fn release_all(&mut self, t: TillNo)
        ensures sales { self.new.sales ≡ after_sign_off t self.old.sales }
        ensures rooms { self.new.rooms ≡ self.old.rooms }
    {
        let cell = t.cell();
        let (one, other) = (self.locked.one[cell], self.locked.other[cell]);
        unlock_at(&mut self.shelves, one, &mut self.sums, t);
        unlock_at(&mut self.shelves, other, &mut self.sums, t);
        self.locked.forget(t);
    }

    /// Returns the transaction as a read shows it; None if there is none.
    pub fn row(&self, p: FpNo, shift: ShiftNo, s: Seq) -> Option<TransactionView>
        ensures { result ≡ view_of_sale (key shift p s) self.now.sales }
    {
        let found = self.find(p, shift, s)?;
        Some(self.view(&found))
    }

    /// Returns the millilitres of product q in the transactions of this status. Those of all
    /// transactions fit in 64 bits.
    pub fn sum(&self, q: ProductNo, status: Status) -> u64
        ensures value { result ≡ volume_by q status self.now.sales }
        ensures fits { volume_of q self.now.sales < 2 ^ 64 }
    {
        let _ = q.get();
        self.sums.get(q, status)
    }

    /// Sums a figure over the transactions themselves, and reads no sum that is kept. It fits in 64
    /// bits.
    pub fn recount(&self, figure: &Figure) -> u64
        requires { figure_of figure.now self.now.sales < 2 ^ 64 }
        ensures { result ≡ figure_of figure.now self.now.sales }
    {
        recount_on(&self.shelves, figure)
    }

    /// What the transaction table says of the till's request.
    fn ask(
        &mut self,
        p: FpNo,
        shift: ShiftNo,
        s: Seq,
        t: TillNo,
        request: &Request,
    ) -> Result<Answer, Refusal>
        ensures asked { Asked request.now t (key shift p s) self.old.sales self.new.sales result }
        ensures rooms { self.new.rooms ≡ self.old.rooms }
    {
        let Some(found) = self.find(p, shift, s) else {
            return Err(Refusal::NoSuchTransaction);
        };
        self.judge(&found, request, t)?;
        Ok(self.grant(&found, request, t))
    }
}

/// Makes the sales of these points that this till has locked payable, in the sums too.
fn unlock_at(shelves: &mut [Shelf], points: PointSet, sums: &mut Sums, t: TillNo)
    requires cells { length shelves.old ≡ POINT_CELLS }
    requires sums { AreSums (sales_on shelves.old) sums.old }
    ensures cells { length shelves.new ≡ POINT_CELLS }
    ensures shelves { AreLetGo t points shelves.old shelves.new }
    ensures sums { AreSums (sales_on shelves.new) sums.new }
{
    let mut left = points;
    while let Some(p) = left.first() {
        let shelf = &mut shelves[p.cell()];
        shelf.unlock_sums(sums, t);
        shelf.unlock_all_of(t);
        left.remove(p);
    }
}
