//! Words of answers, views and refusals, and the ends of the ranges of numbers.

use site_base::{
    Answer, Cents, FpNo, Millilitres, Mills, NozzleNo, PointState, PointView, Preset, ProductNo,
    ProductView, Refusal, SaleId, Seq, ShiftNo, SiteView, TillNo,
};
use std::test::Fail;

/// A point that waits for the first fuel of a test.
const TEST: PointView = PointView {
    state: PointState::Authorised,
    out: None,
    holder: None,
    ending: false,
    test: true,
    preset: Preset::Unset,
    prepaid: None,
    price: 0,
    volume: 0,
};

#[test]
fn sales_are_named_by_their_numbers(rt: HostRuntime) -> Result<(), Fail> {
    let alloc = rt.alloc();
    let p = FpNo::new(3).ok_or("a point")?.get();
    let seq = Seq::new(1).ok_or("a number")?;
    let shift = Some(ShiftNo::new(2).ok_or("a shift")?);
    let open = SaleId { shift: None, seq };
    let earlier = SaleId { shift, seq };
    assert_eq!(rt; format!(in alloc; "{p}/{open}")?.as_str(), "3/1");
    assert_eq!(rt; format!(in alloc; "{p}/{earlier}")?.as_str(), "3/2/1");
    Ok(())
}

#[test]
fn draws_and_shifts_in_words(rt: HostRuntime) -> Result<(), Fail> {
    let alloc = rt.alloc();
    let drawn = Answer::Drawn { growth: 20_000 };
    assert_eq!(rt; format!(in alloc; "{drawn}")?.as_str(), "Drawn{20000}");
    let shift = ShiftNo::new(999).ok_or("a shift")?;
    let closed = Answer::ShiftClosed(shift);
    assert_eq!(rt; format!(in alloc; "{closed}")?.as_str(), "ShiftClosed(999)");
    let spent = Refusal::MeterSpent;
    assert_eq!(rt; format!(in alloc; "{spent}")?.as_str(), "25 MeterSpent");
    let site = SiteView { cents: 1500, shift };
    assert_eq!(rt;
        format!(in alloc; "{site}")?.as_str(),
        "cents 1500, shift 999"
    );
    Ok(())
}

#[test]
fn tests_and_their_fuel_in_words(rt: HostRuntime) -> Result<(), Fail> {
    let alloc = rt.alloc();
    assert_eq!(rt;
        format!(in alloc; "{TEST}")?.as_str(),
        "authorised, out 0, holder 0, ending 0, test 1, preset Unset, price 0, volume 0, prepaid 0"
    );
    let product = ProductView {
        price: Mills::new(1500).ok_or("a price")?,
        metered: 20_000,
        running: 0,
        payable: 0,
        locked: 0,
        cleared: 0,
        adjusted: 20_000,
    };
    assert_eq!(rt;
        format!(in alloc; "{product}")?.as_str(),
        "price 1500, metered 20000, running 0, payable 0, locked 0, cleared 0, adjusted 20000"
    );
    Ok(())
}

#[test]
fn ranges_end_where_the_profile_says(rt: HostRuntime) {
    assert!(rt; FpNo::new(0).is_none());
    assert!(rt; FpNo::new(64).is_some());
    assert!(rt; FpNo::new(65).is_none());
    assert!(rt; TillNo::new(0).is_none());
    assert!(rt; TillNo::new(32).is_some());
    assert!(rt; TillNo::new(33).is_none());
    assert!(rt; NozzleNo::new(0).is_none());
    assert!(rt; NozzleNo::new(8).is_some());
    assert!(rt; NozzleNo::new(9).is_none());
    assert!(rt; ProductNo::new(0).is_none());
    assert!(rt; ProductNo::new(8).is_some());
    assert!(rt; ProductNo::new(9).is_none());
    assert!(rt; Seq::new(0).is_none());
    assert!(rt; Seq::new(9999).is_some());
    assert!(rt; Seq::new(10_000).is_none());
    assert!(rt; ShiftNo::new(0).is_none());
    assert_eq!(rt; ShiftNo::new(1), Some(ShiftNo::FIRST));
    assert!(rt; ShiftNo::new(999).is_some());
    assert!(rt; ShiftNo::new(1000).is_none());
}

#[test]
fn amounts_end_where_the_profile_says(rt: HostRuntime) {
    assert!(rt; Millilitres::new(0).is_some());
    assert!(rt; Millilitres::new(999_999_999_999).is_some());
    assert!(rt; Millilitres::new(1_000_000_000_000).is_none());
    assert!(rt; Mills::new(0).is_none());
    assert!(rt; Mills::new(1).is_some());
    assert!(rt; Mills::new(99_999).is_some());
    assert!(rt; Mills::new(100_000).is_none());
    assert!(rt; Cents::new(0).is_some());
    assert!(rt; Cents::new(9_999_900_000_000).is_some());
    assert!(rt; Cents::new(9_999_900_000_001).is_none());
}
