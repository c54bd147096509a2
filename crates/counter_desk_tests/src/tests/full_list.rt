//! A worker whose list is longer than the book: it stops when the book is full, and signs its tills
//! off.

use super::calls::{Calls, by_till, point};
use super::day::{Day, run_day};
use counter_desk::{Desk, Naming, OpenGate, Share, WorkFault, work};
use forecourt_engines::known_site_of;
use site_base::{Event, NoMemory};
use std::alloc::Global;
use std::process::Abort;
use std::sync::Wait;
use std::sync::ledger::Ledger;
use std::test::Fail;

#[test]
fn full_list(rt: HostRuntime) -> Result<(), Fail> {
    let config = known_site_of(rt.alloc(), 3)?;
    let calls = four_calls(&rt, rt.alloc())?;
    let settled = run_day(&rt, rt.alloc(), &config, &mut FullList { calls })?;
    assert_eq!(rt; settled.rows, 5);
    assert_eq!(rt; settled.shares, 1);
    Ok(())
}

/// Four calls, where the book allows three rows.
#[derive(Drop)]
struct FullList {
    calls: Calls,
}

impl Day for FullList {
    fn work<L: Ledger, C: Naming, R: Wait + Abort + Eprint>(
        &mut self,
        rt: &R,
        _alloc: Global,
        desk: &Desk<L, C>,
        share: Share<L, C>,
    ) -> Share<L, C> {
        let mut share = share;
        let end = work(rt, desk, &mut share, &OpenGate, &self.calls);
        assert!(rt; end.placed == 3 && end.accepted == 3);
        assert!(rt;
            end.fault == Some(WorkFault::BookFull),
            "the book isn't full"
        );
        assert_eq!(rt; share.calls(), 5);
        share
    }
}

/// Two tills sign on, and each opens a point.
fn four_calls(rt: &impl Abort, alloc: Global) -> Result<Calls, NoMemory> {
    let mut calls = Vec::new(alloc);
    calls.push((by_till(rt, 1), Event::SignOn))?;
    calls.push((by_till(rt, 2), Event::SignOn))?;
    calls.push((by_till(rt, 1), Event::Open(point(rt, 1))))?;
    calls.push((by_till(rt, 2), Event::Open(point(rt, 2))))?;
    Ok(calls)
}
