//! What prevents a history from ending.

ghost use Rattle.std.specs.Prelude.{Some};
ghost use Rattle.std.specs.Fmt.{DisplaysOnOk};
ghost use Rattle.next_opening.specs.Obstacles.{money_words, sale_words, shift_words};
ghost use Rattle.next_opening.specs.Obstacles.{unpaid_words};

use site_base::{Cents, FpNo, ShiftNo};
use site_book::NamedSale;
use std::fmt;

/// What prevents a history from ending. It is printed with its point: `point 3: sale 17 of shift 2
/// is unpaid: 12.00`, `point 4 is released`, `point 5: a fuelling is under way`.
#[derive(Clone, Copy, Drop)]
pub enum Obstacle {
    /// A transaction is payable or locked.
    Unpaid(NamedSale),
    /// A point is released, and no nozzle is out yet.
    Released(FpNo),
    /// A fuelling of a point has started and isn't over.
    UnderWay(FpNo),
}

impl fmt::Display for Obstacle {
    ghost use Rattle.std.specs.Prelude.{Some};
    ghost use Rattle.next_opening.specs.Obstacles.{obstacle_text};

    ghost output = { λ obstacle. Some (obstacle_text obstacle) };

    fn fmt<W: fmt::Write>(&self, f: &mut fmt::Formatter<W>) -> fmt::Result {
        match self {
            Obstacle::Unpaid(sold) => {
                write_unpaid(f, sold)?;
                write_money(f, sold.sale.cents)
            }
            Obstacle::Released(point) => write!(f, "point {} is released", point.get()),
            Obstacle::UnderWay(point) => {
                write!(f, "point {}: a fuelling is under way", point.get())
            }
        }
    }
}

/// Writes which transaction is unpaid.
fn write_unpaid<W: fmt::Write>(f: &mut fmt::Formatter<W>, sold: &NamedSale) -> fmt::Result
    ensures { DisplaysOnOk W.Write.write_str_gives f.old result
        (Some (unpaid_words sold.now)) f.new }
{
    write_sale(f, sold)?;
    write_shift(f, sold.shift)
}

/// Writes a transaction of a point.
fn write_sale<W: fmt::Write>(f: &mut fmt::Formatter<W>, sold: &NamedSale) -> fmt::Result
    ensures { DisplaysOnOk W.Write.write_str_gives f.old result
        (Some (sale_words sold.now)) f.new }
{
    let (point, number) = (sold.point.get(), sold.number.get());
    write!(f, "point {point}: sale {number}")
}

/// Writes the shift in which it was sold.
fn write_shift<W: fmt::Write>(f: &mut fmt::Formatter<W>, shift: ShiftNo) -> fmt::Result
    ensures { DisplaysOnOk W.Write.write_str_gives f.old result
        (Some (shift_words shift)) f.new }
{
    write!(f, " of shift {}", shift.get())
}

/// Writes how much is unpaid, as money with two decimals.
fn write_money<W: fmt::Write>(f: &mut fmt::Formatter<W>, amount: Cents) -> fmt::Result
    ensures { DisplaysOnOk W.Write.write_str_gives f.old result
        (Some (money_words amount)) f.new }
{
    let cents = amount.get();
    write!(
        f,
        " is unpaid: {}.{}{}",
        cents / 100,
        cents / 10 % 10,
        cents % 10
    )
}
