//! Everything that prevents a book's history from ending.

ghost use Rattle.std.specs.Prelude.{◌≡◌, ◌++◌, ◌↔◌, [], filter, map, true, IfOk, OnOk};
ghost use Rattle.std.specs.List.{list_all};
ghost use Rattle.site_base.specs.declared.limits.TheConstants.{POINTS};
ghost use Rattle.site_base.specs.Ranges.{is_between};
ghost use Rattle.site_book.specs.Book.{site_of_book};
ghost use Rattle.site_book.specs.Unpaid.{unpaid_sales};
ghost use Rattle.written_site.specs.SiteState.{facts_of};
ghost use Rattle.next_opening.specs.Obstacles.{IsAtRest, at_point, is_at, obstacles, of_state};

use crate::obstacle::Obstacle;
use site_base::{FpNo, NoMemory, POINT_CELLS, PointState};
use site_book::{NamedSale, SiteBook, UnpaidSales};
use std::alloc::Global;

/// Returns what prevents a book's history from ending: each unpaid transaction, and each point that
/// is released or has a fuelling in progress. They are in the order of the points' numbers: for
/// each point its unpaid transactions in the order in which they were sold, and then its state.
/// `unpaid` has to have read the whole book. The list is empty exactly if everything is paid and no
/// point is released or has a fuelling in progress.
pub fn obstacles(
    alloc: Global,
    book: &SiteBook,
    unpaid: &UnpaidSales,
) -> Result<Vec<Obstacle>, NoMemory>
    requires read { unpaid.now.sales ≡ unpaid_sales book.now }
    ensures found { IfOk result (λ found. found.items ≡ obstacles book.now) }
    ensures none { IfOk result (λ found. (found.items ≡ []) ↔ IsAtRest book.now) }
{
    let sales = unpaid.as_slice();
    tell_points(sales);
    let mut found = Vec::new(alloc);
    for cell in 0..POINT_CELLS {
        add_point(book, sales, FpNo::of_cell(cell), &mut found)?;
    }
    Ok(found)
}

/// Each sale is one of a point that a site may have, by its type.
fn tell_points(sales: &[NamedSale])
    ensures { list_all (λ x. is_between 1 POINTS x.point) sales.now ≡ true }
{
    for sold in sales {
        let _ = sold.point.get();
    }
}

/// Adds what hinders at a point.
fn add_point(
    book: &SiteBook,
    unpaid: &[NamedSale],
    point: FpNo,
    found: &mut Vec<Obstacle>,
) -> Result<(), NoMemory>
    ensures { OnOk result (found.new.items
        ≡ found.old.items ++ at_point (site_of_book book.now) unpaid.now point) }
{
    add_unpaid(unpaid, point, found)?;
    add_state(book, point, found)
}

/// Adds the unpaid transactions of a point.
fn add_unpaid(unpaid: &[NamedSale], point: FpNo, found: &mut Vec<Obstacle>) -> Result<(), NoMemory>
    ensures { OnOk result (found.new.items
        ≡ found.old.items ++ map Obstacle.Unpaid (filter (is_at point) unpaid.now)) }
{
    for sold in unpaid {
        if sold.point.get() == point.get() {
            found.push(Obstacle::Unpaid(*sold))?;
        }
    }
    Ok(())
}

/// Adds the state of a point, if it hinders.
fn add_state(book: &SiteBook, point: FpNo, found: &mut Vec<Obstacle>) -> Result<(), NoMemory>
    ensures { OnOk result (found.new.items
        ≡ found.old.items ++ of_state point (facts_of (site_of_book book.now) point).state) }
{
    let Some(view) = book.point(point) else {
        return Ok(());
    };
    match view.state {
        PointState::Authorised => found.push(Obstacle::Released(point))?,
        PointState::Started
        | PointState::SuspendedStarted
        | PointState::Fuelling
        | PointState::SuspendedFuelling => found.push(Obstacle::UnderWay(point))?,
        PointState::Inoperative | PointState::Closed | PointState::Idle | PointState::Calling => {}
    }
    Ok(())
}
