//! The shifts of a site.

ghost use Rattle.std.specs.Prelude.{◌≡◌, ◌-◌, ◌^◌, ◌<◌, ◌≤◌, true, false, length, OnOk, OnErr};
ghost use Rattle.std.specs.Prelude.{IfOk, IfErr};
ghost use Rattle.site_base.specs.declared.refusal.Refusal.TheVariants.{ShiftsSpent};
ghost use Rattle.site_base.specs.declared.numbers.TheConstants.{GREATEST_SHIFT};
ghost use Rattle.shift_ledger.specs.Figures.{FitsClear, FitsDraw};
ghost use Rattle.shift_ledger.specs.Shifts.{drawn_in_all, first_shift, open_number, is_last};
ghost use Rattle.shift_ledger.specs.Shifts.{figures_of};
ghost use Rattle.shift_ledger.specs.Shifts.{after_close, after_clear, after_draw};

use crate::row::ShiftRow;
use site_base::{GREATEST_SHIFT, NoMemory, ProductNo, Refusal, ShiftNo, TillNo};
use std::alloc::Global;
use std::marker::Model;

/// The figures of the closed shifts, which are numbered from 1, and of the open shift, which is the
/// next one.
#[derive(Drop)]
pub struct ShiftBook {
    closed: Vec<ShiftRow>,
    current: ShiftRow,
}

impl Model for ShiftBook {
    ghost use Rattle.std.specs.Prelude.{◌-◌, ◌<◌, vec_len, vec_capacity, length};
    ghost use Rattle.site_base.specs.declared.numbers.TheConstants.{GREATEST_SHIFT};
    ghost use Rattle.shift_ledger.specs.Shifts.{Book};

    ghost Value = { Book };

    ghost view = { λ b. record {
      shifts = record { closed = b.closed.items; current = b.current };
      room = vec_capacity b.closed - vec_len b.closed;
    } };

    ghost invariant = { λ b. length b.closed.items < GREATEST_SHIFT };
}

impl ShiftBook {
    /// Returns a book in which no shift is closed, and shift 1 is open with nothing in it. It takes
    /// no memory.
    pub fn new(alloc: Global) -> Self
        ensures { result.shifts ≡ first_shift }
    {
        ShiftBook {
            closed: Vec::new(alloc),
            current: ShiftRow::empty(),
        }
    }

    /// Makes the room that the next close needs. The shifts stay. If memory runs out, nothing
    /// changes.
    pub fn reserve(&mut self) -> Result<(), NoMemory>
        ensures shifts { self.new.shifts ≡ self.old.shifts }
        ensures room { OnOk result (0 < self.new.room) }
        ensures kept { self.old.room ≤ self.new.room }
        ensures err { OnErr result (self.new ≡ self.old) }
    {
        self.closed.reserve(1)?;
        Ok(())
    }

    /// Adds a clear by a till to the open shift: this many millilitres and cents of this product.
    /// The open shift's sums have to fit in u64 with it.
    pub fn note_cleared(&mut self, t: TillNo, q: ProductNo, ml: u64, cents: u64)
        requires { FitsClear t q ml cents self.old.shifts.current }
        ensures shifts { self.new.shifts ≡ after_clear t q ml cents self.old.shifts }
        ensures room { self.new.room ≡ self.old.room }
    {
        self.current.note_cleared(t, q, ml, cents);
    }

    /// Adds a draw of a test to the open shift: this many millilitres of this product. The open
    /// shift's sum has to fit in u64 with it.
    pub fn note_drawn(&mut self, q: ProductNo, ml: u64)
        requires { FitsDraw q ml self.old.shifts.current }
        ensures shifts { self.new.shifts ≡ after_draw q ml self.old.shifts }
        ensures room { self.new.room ≡ self.old.room }
    {
        self.current.note_drawn(q, ml);
    }

    /// Closes the open shift and opens the next one, with nothing in it. Returns the number of the
    /// closed shift. If shift `GREATEST_SHIFT` is open, it is refused with `ShiftsSpent`, and
    /// nothing changes. Room has to be reserved, even for a refusal; it takes no memory.
    pub fn close(&mut self) -> Result<ShiftNo, Refusal>
        requires { 0 < self.old.room }
        ensures accepted { OnOk result (is_last self.old.shifts ≡ false) }
        ensures number { IfOk result (λ n. n ≡ open_number self.old.shifts) }
        ensures shifts { OnOk result (self.new.shifts ≡ after_close self.old.shifts) }
        ensures room { OnOk result (self.new.room ≡ self.old.room - 1) }
        ensures spent { OnErr result (is_last self.old.shifts ≡ true) }
        ensures refused { IfErr result (λ refusal. refusal ≡ ShiftsSpent) }
        ensures err { OnErr result (self.new ≡ self.old) }
    {
        if self.open().get() == GREATEST_SHIFT {
            return Err(Refusal::ShiftsSpent);
        }
        Ok(self.perform_close())
    }

    /// Closes an open shift that isn't the last possible one. Returns its number.
    pub fn perform_close(&mut self) -> ShiftNo
        requires room { 0 < self.old.room }
        requires next { is_last self.old.shifts ≡ false }
        ensures number { result ≡ open_number self.old.shifts }
        ensures shifts { self.new.shifts ≡ after_close self.old.shifts }
        ensures room { self.new.room ≡ self.old.room - 1 }
    {
        let number = self.open();
        self.closed.push_reserved(self.current);
        self.current = ShiftRow::empty();
        number
    }

    /// Returns the number of closed shifts.
    pub fn rows(&self) -> u16
        ensures value { result ≡ length self.now.shifts.closed }
        ensures range { result < GREATEST_SHIFT }
    {
        self.closed.len() as u16
    }

    /// Returns the number of the open shift.
    pub fn open(&self) -> ShiftNo
        ensures { result ≡ open_number self.now.shifts }
    {
        match ShiftNo::new(self.rows() + 1) {
            Some(number) => number,
            None => unreachable!(),
        }
    }

    /// Returns the figures of shift n, also of the open one; None for a shift to come.
    pub fn row(&self, n: ShiftNo) -> Option<ShiftRow>
        ensures { result ≡ figures_of n self.now.shifts }
    {
        let (number, closed) = (n.get(), self.rows());
        if number <= closed {
            Some(self.closed[usize::from(number) - 1])
        } else if number == closed + 1 {
            Some(self.current)
        } else {
            None
        }
    }

    /// Sums the millilitres that tests drew of a product over all shifts. They fit in 64 bits.
    pub fn drawn_volume(&self, q: ProductNo) -> u64
        requires { drawn_in_all q self.now.shifts < 2 ^ 64 }
        ensures { result ≡ drawn_in_all q self.now.shifts }
    {
        let mut sum = self.current.drawn_volume(q);
        for row in &self.closed {
            sum += row.drawn_volume(q);
        }
        sum
    }
}
