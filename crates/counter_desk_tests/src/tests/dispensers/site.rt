//! The site of the tests, and the calls that set it up.

use counter_desk::{Desk, Naming, Share};
use demo::Step;
use site_base::{
    Actor, Event, FpNo, Listing, Millilitres, Mills, NoMemory, NoRow, NozzleEntry, NozzleNo,
    PointEntry, ProductEntry, ProductName, ProductNo, SiteConfig, TillNo,
};
use std::alloc::Global;
use std::process::Abort;
use std::sync::Wait;
use std::sync::ledger::Ledger;

pub fn till(rt: &impl Abort) -> TillNo {
    TillNo::new(1).expect(rt, "till 1")
}

pub fn point(rt: &impl Abort, number: u8) -> FpNo {
    FpNo::new(number).expect(rt, "a point")
}

pub fn lift(rt: &impl Abort, number: u8) -> Step {
    Step::Lift(NozzleNo::new(number).expect(rt, "a nozzle"))
}

pub fn pump(rt: &impl Abort, volume: u64) -> Step {
    Step::Pump(Millilitres::new(volume).expect(rt, "a volume"))
}

/// Returns a site with diesel at 1500 mills, and point 1 with one nozzle, from this reading.
pub fn one_point(
    rt: &impl Abort,
    alloc: Global,
    rows: u32,
    reading: u64,
) -> Result<SiteConfig, NoMemory> {
    let number = ProductNo::new(1).expect(rt, "a product");
    let mut products = Vec::new(alloc);
    products.push(ProductEntry {
        number,
        name: ProductName::new(String::from_str(alloc, "diesel")?).expect(rt, "a name"),
        price: Mills::new(1500).expect(rt, "a price"),
    })?;
    let mut nozzles = Vec::new(alloc);
    nozzles.push(NozzleEntry {
        product: number,
        reading: Millilitres::new(reading).expect(rt, "a reading"),
    })?;
    let mut points = Vec::new(alloc);
    points.push(PointEntry {
        number: point(rt, 1),
        nozzles: Listing::from(nozzles),
    })?;
    Ok(SiteConfig::try_new(rows, Vec::new(alloc), products, points).expect(rt, "a site"))
}

/// Makes an accepted call of till 1. If an allocation failed, the share is as before, and the call
/// is made once more.
pub fn call<L: Ledger, C: Naming, R: Wait + Abort + Eprint>(
    rt: &R,
    desk: &Desk<L, C>,
    share: &mut Share<L, C>,
    event: &Event,
) {
    let (calls, owes) = (share.calls(), share.owes(till(rt)));
    match &desk.submit(rt, share, Actor::Till(till(rt)), *event) {
        Ok(placed) => {
            assert!(rt; placed.reply.is_ok(), "refused");
            return;
        }
        Err(NoRow::NoMemory) => {
            let _ = rt.eprintln("an allocation failed");
        }
        Err(NoRow::BookFull) => panic!(rt; "the book is full"),
    }
    assert!(rt; share.calls() == calls && share.owes(till(rt)) == owes);
    match &desk.submit(rt, share, Actor::Till(till(rt)), *event) {
        Ok(placed) => assert!(rt; placed.reply.is_ok(), "refused"),
        Err(_) => panic!(rt; "no row"),
    }
}

/// Signs off till 1, to which the share owes that.
pub fn leave<L: Ledger, C: Naming, R: Wait + Abort>(
    rt: &R,
    desk: &Desk<L, C>,
    share: &mut Share<L, C>,
) {
    let t = till(rt);
    assert!(rt; share.owes(t), "the till isn't owed");
    assert!(rt;
        desk.leave(rt, share, t).is_some(),
        "the till wasn't signed on"
    );
}
