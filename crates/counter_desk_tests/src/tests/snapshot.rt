//! What a snapshot and a read of a point show: the opening site first, and then what was called.

use super::calls::point;
use super::day::run_day;
use super::out_of_memory::PaidDay;
use counter_desk::{Desk, Naming};
use forecourt_engines::known_site_of;
use site_base::{NoMemory, PointState};
use std::alloc::Global;
use std::process::Abort;
use std::sync::Wait;
use std::sync::ledger::Ledger;
use std::test::Fail;

#[test]
fn snapshot_sees(rt: HostRuntime) -> Result<(), Fail> {
    let config = known_site_of(rt.alloc(), 1_000_000)?;
    let mut day = PaidDay { sees_opening: true };
    let settled = run_day(&rt, rt.alloc(), &config, &mut day)?;
    assert_eq!(rt; settled.rows, 12);
    assert_eq!(rt; settled.cents, 1_500);
    assert_eq!(rt; settled.millilitres, 10_000);
    Ok(())
}

/// There are no rows, and point 1 is closed.
pub fn see_opening<L: Ledger, C: Naming, R: Wait + Abort>(
    rt: &R,
    alloc: Global,
    desk: &Desk<L, C>,
) -> Result<(), NoMemory> {
    let totals = desk.snapshot(rt, alloc)?;
    assert_eq!(rt; totals.rows, 0);
    match &desk.point(rt, point(rt, 1)) {
        Some(view) => assert!(rt; view.state == PointState::Closed),
        None => panic!(rt; "no point"),
    }
    Ok(())
}
