//! Octets of messages, and calls of tills and dispensers.

use site_base::{Actor, Event, FpNo, Millilitres, NoMemory, NozzleNo, Preset, SaleId, Seq, TillNo};
use std::alloc::Global;
use std::process::Abort;

/// A list of calls.
pub type Calls = Vec<(Actor, Event)>;

/// Till 1 signs on and opens point 1, and then till 2 signs on.
pub const TWO_TILLS: &str = "01 01 02 01 00 41 00 04 01 01 31 00\
 01 01 02 01 00 42 00 04 01 21 3C 00 01 01 02 02 00 43 00 04 01 01 31 00";

/// Both requests of till 1 are acknowledged, and till 2 is refused as another originator.
pub const TWO_TILLS_TOLD: &str = "02 01 01 01 00 E1 00 08 01 01 01 01 00 03 01 00\
 02 01 01 01 00 E2 00 08 01 21 01 01 00 03 01 00 02 02 01 01 00 E3 00 05 01 01 01 01 39";

/// Till 1 signs on, opens point 3, and reads it.
pub const THREE_REQUESTS: &str = "01 01 02 01 00 41 00 04 01 01 31 00\
 01 01 02 01 00 42 00 04 01 23 3C 00 01 01 02 01 00 03 00 02 01 23";

/// Both are acknowledged, and the point is shown: it is idle.
pub const THREE_TOLD: &str = "02 01 01 01 00 E1 00 08 01 01 01 01 00 03 01 00\
 02 01 01 01 00 E2 00 08 01 23 01 01 00 03 01 00\
 02 01 01 01 00 23 00 1E 01 23 10 01 03 11 01 00 12 01 00 13 01 00 72 04 00 00 00 00\
 73 08 00 00 00 00 00 00 00 00";

/// Returns the octets that a text has in hexadecimal, with spaces between them.
pub fn octets(rt: &impl Abort, alloc: Global, text: &str) -> Result<Vec<u8>, NoMemory> {
    let mut digits = Vec::new(alloc);
    for digit in text.as_bytes() {
        if *digit != b' ' {
            digits.push(*digit)?;
        }
    }
    let mut octets = vec![in alloc; 0u8; digits.len() / 2]?;
    let read = hex::decode_to_slice(digits.as_slice(), octets.as_mut_slice());
    assert!(rt; read.is_ok(), "no hexadecimal");
    Ok(octets)
}

pub fn by_till(rt: &impl Abort, number: u8) -> Actor {
    Actor::Till(TillNo::new(number).expect(rt, "a till"))
}

fn point(rt: &impl Abort) -> FpNo {
    FpNo::new(1).expect(rt, "a point")
}

fn sale(rt: &impl Abort) -> SaleId {
    SaleId {
        shift: None,
        seq: Seq::new(1).expect(rt, "a number"),
    }
}

/// Nozzle 1 of point 1 is lifted.
fn lift(rt: &impl Abort, reading: u64) -> (Actor, Event) {
    let (p, n, reading) = report(rt, reading);
    (Actor::Dispenser(p), Event::Lift(p, n, reading))
}

/// Nozzle 1 of point 1 is put back.
fn hang_up(rt: &impl Abort, reading: u64) -> (Actor, Event) {
    let (p, n, reading) = report(rt, reading);
    (Actor::Dispenser(p), Event::HangUp(p, n, reading))
}

fn report(rt: &impl Abort, reading: u64) -> (FpNo, NozzleNo, Millilitres) {
    (
        point(rt),
        NozzleNo::new(1).expect(rt, "a nozzle"),
        Millilitres::new(reading).expect(rt, "a reading"),
    )
}

/// Tills 1 and 2 sign on; till 1 opens point 1 and releases it, 10,000 ml of diesel flow there, and
/// till 1 locks the sale and clears it. Then till 1 clears it again, and till 2 locks it; both are
/// refused.
pub fn one_sale(rt: &impl Abort, alloc: Global) -> Result<Calls, NoMemory> {
    let mut calls = Vec::new(alloc);
    calls.push((by_till(rt, 1), Event::SignOn))?;
    calls.push((by_till(rt, 2), Event::SignOn))?;
    calls.push((by_till(rt, 1), Event::Open(point(rt))))?;
    calls.push((by_till(rt, 1), Event::Release(point(rt), Preset::Unset)))?;
    calls.push(lift(rt, 0))?;
    calls.push(hang_up(rt, 10_000))?;
    calls.push((by_till(rt, 1), Event::Lock(point(rt), sale(rt))))?;
    calls.push((by_till(rt, 1), Event::Clear(point(rt), sale(rt))))?;
    calls.push((by_till(rt, 1), Event::Clear(point(rt), sale(rt))))?;
    calls.push((by_till(rt, 2), Event::Lock(point(rt), sale(rt))))?;
    Ok(calls)
}
