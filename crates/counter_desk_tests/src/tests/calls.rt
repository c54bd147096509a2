//! Calls of tills and dispensers.

use site_base::{Actor, Event, FpNo, Millilitres, NoMemory, NozzleNo, Preset, SaleId, Seq, TillNo};
use std::alloc::Global;
use std::process::Abort;

/// A list of calls.
pub type Calls = Vec<(Actor, Event)>;

pub fn till(rt: &impl Abort, number: u8) -> TillNo {
    TillNo::new(number).expect(rt, "a till")
}

pub fn by_till(rt: &impl Abort, number: u8) -> Actor {
    Actor::Till(till(rt, number))
}

pub fn point(rt: &impl Abort, number: u8) -> FpNo {
    FpNo::new(number).expect(rt, "a point")
}

/// Nozzle 1 of a point is lifted.
pub fn lift(rt: &impl Abort, p: u8, reading: u64) -> (Actor, Event) {
    let (p, n, reading) = report(rt, p, reading);
    (Actor::Dispenser(p), Event::Lift(p, n, reading))
}

/// Nozzle 1 of a point is put back.
pub fn hang_up(rt: &impl Abort, p: u8, reading: u64) -> (Actor, Event) {
    let (p, n, reading) = report(rt, p, reading);
    (Actor::Dispenser(p), Event::HangUp(p, n, reading))
}

fn report(rt: &impl Abort, p: u8, reading: u64) -> (FpNo, NozzleNo, Millilitres) {
    (
        point(rt, p),
        NozzleNo::new(1).expect(rt, "a nozzle"),
        Millilitres::new(reading).expect(rt, "a reading"),
    )
}

/// Returns the sale of this number in the open shift.
pub fn sale(rt: &impl Abort, number: u16) -> SaleId {
    SaleId {
        shift: None,
        seq: Seq::new(number).expect(rt, "a number"),
    }
}

/// A till signs on, opens each of the five points, and makes two sales of 10,000 ml of diesel
/// there.
pub fn setup(rt: &impl Abort, alloc: Global, t: u8) -> Result<Calls, NoMemory> {
    let mut calls = Vec::new(alloc);
    calls.push((by_till(rt, t), Event::SignOn))?;
    for p in 1..6 {
        calls.push((by_till(rt, t), Event::Open(point(rt, p))))?;
        fuelling(rt, &mut calls, t, p, 0)?;
        fuelling(rt, &mut calls, t, p, 10_000)?;
    }
    Ok(calls)
}

/// The point is released, and 10,000 ml of diesel flow from this reading on.
fn fuelling(
    rt: &impl Abort,
    calls: &mut Calls,
    t: u8,
    p: u8,
    reading: u64,
) -> Result<(), NoMemory> {
    calls.push((by_till(rt, t), Event::Release(point(rt, p), Preset::Unset)))?;
    calls.push(lift(rt, p, reading))?;
    calls.push(hang_up(rt, p, reading.saturating_add(10_000)))?;
    Ok(())
}

/// A till signs on, and locks and clears both sales of each of the five points.
pub fn clears(rt: &impl Abort, alloc: Global, t: u8) -> Result<Calls, NoMemory> {
    let mut calls = Vec::new(alloc);
    calls.push((by_till(rt, t), Event::SignOn))?;
    for p in 1..6 {
        clear(rt, &mut calls, t, p, 1)?;
        clear(rt, &mut calls, t, p, 2)?;
    }
    Ok(calls)
}

/// The till locks and clears a sale.
pub fn clear(
    rt: &impl Abort,
    calls: &mut Calls,
    t: u8,
    p: u8,
    number: u16,
) -> Result<(), NoMemory> {
    calls.push((by_till(rt, t), Event::Lock(point(rt, p), sale(rt, number))))?;
    calls.push((by_till(rt, t), Event::Clear(point(rt, p), sale(rt, number))))?;
    Ok(())
}

/// A crew of two workers, which sign on till 1 and till 2.
pub fn sign_on_both(rt: &impl Abort, alloc: Global) -> Result<Vec<Vec<Calls>>, NoMemory> {
    let mut lists = Vec::new(alloc);
    for number in 1..3 {
        let mut calls = Vec::new(alloc);
        calls.push((by_till(rt, number), Event::SignOn))?;
        lists.push(calls)?;
    }
    let mut crews = Vec::new(alloc);
    crews.push(lists)?;
    Ok(crews)
}
