//! fuelling_point: what no clause says of `Claims`, that a till's points are returned if there is
//! memory for them.

mod out_of_memory;

use fuelling_point::Claims;
use site_base::{FpNo, TillNo};
use std::alloc::Global;
use std::process::Abort;
use std::test::Fail;

fn point(rt: &impl Abort, number: u8) -> FpNo {
    FpNo::new(number).expect(rt, "the number of a point")
}

fn till(rt: &impl Abort, number: u8) -> TillNo {
    TillNo::new(number).expect(rt, "the number of a till")
}

/// These are the points that the till holds.
fn assert_held(
    rt: &impl Abort,
    alloc: Global,
    claims: &Claims,
    t: u8,
    want: &[u8],
) -> Result<(), Fail> {
    let t = till(rt, t);
    let points = claims.held_by(alloc, t)?;
    assert_eq!(rt; points.len(), want.len());
    for (found, number) in points.iter().zip(want) {
        assert_eq!(rt; found.get(), *number);
    }
    for number in want {
        assert_eq!(rt; claims.holder(point(rt, *number)), Some(t));
    }
    Ok(())
}

/// The till takes a point that nobody else holds.
fn take(rt: &impl Abort, claims: &mut Claims, p: u8, t: u8) {
    let (p, t) = (point(rt, p), till(rt, t));
    match claims.holder(p) {
        None => claims.take(p, t),
        Some(holder) => assert_eq!(rt; holder, t),
    }
}

#[test]
fn held_list(rt: HostRuntime) -> Result<(), Fail> {
    let mut claims = Claims::new();
    take(&rt, &mut claims, 2, 1);
    assert_held(&rt, rt.alloc(), &claims, 1, &[2])?;
    assert_held(&rt, rt.alloc(), &claims, 2, &[])
}

#[test]
fn points_are_told_in_rising_order(rt: HostRuntime) -> Result<(), Fail> {
    let mut claims = Claims::new();
    for number in [64, 3, 33, 1, 48, 4, 10, 7, 63, 2] {
        take(&rt, &mut claims, number, 1);
    }
    take(&rt, &mut claims, 5, 32);
    claims.free(point(&rt, 33));
    assert_held(
        &rt,
        rt.alloc(),
        &claims,
        1,
        &[1, 2, 3, 4, 7, 10, 48, 63, 64],
    )?;
    assert_held(&rt, rt.alloc(), &claims, 32, &[5])?;
    assert_eq!(rt; claims.holder(point(&rt, 33)), None);
    Ok(())
}
