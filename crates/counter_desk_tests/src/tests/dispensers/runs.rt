//! Runs of the dispenser of point 1, each at a desk of its own.

use super::site::{call, leave, lift, one_point, point, pump};
use crate::tests::day::{Day, run_day};
use counter_desk::{Desk, Naming, Settled, Share};
use demo::{Dispenser, DispenserEnd, DispenserFault, Script, Step};
use site_base::{Event, NoMemory, PointState, Preset, SiteConfig};
use std::alloc::Global;
use std::process::Abort;
use std::sync::Wait;
use std::sync::ledger::Ledger;
use std::test::Fail;

/// A day of one fuelling point: till 1 signs on, opens the point, and releases it within this
/// preset, where there is one. Then a dispenser takes these steps.
#[derive(Drop)]
struct Fuelling {
    release: Option<Preset>,
    dispenser: u8,
    script: Script,
    polls: u64,
}

/// A fuelling on the site of a configuration, and how it ended.
#[derive(Drop)]
struct FuellingDay<'a> {
    config: &'a SiteConfig,
    fuelling: &'a Fuelling,
    evening: Evening,
}

impl<'a> Day for FuellingDay<'a> {
    fn work<L: Ledger, C: Naming, R: Wait + Abort + Eprint>(
        &mut self,
        rt: &R,
        _alloc: Global,
        desk: &Desk<L, C>,
        share: Share<L, C>,
    ) -> Share<L, C> {
        let mut share = share;
        call(rt, desk, &mut share, &Event::SignOn);
        call(rt, desk, &mut share, &Event::Open(point(rt, 1)));
        if let Some(preset) = self.fuelling.release {
            call(rt, desk, &mut share, &Event::Release(point(rt, 1), preset));
        }
        let before = share.calls();
        let mut dispenser = Dispenser::new(self.config, point(rt, self.fuelling.dispenser));
        let script = &self.fuelling.script;
        let DispenserEnd {
            share,
            sold,
            refused,
            fault,
        } = dispenser.run(rt, desk, share, script, self.fuelling.polls);
        let mut share = share;
        self.evening = Evening {
            sold,
            refused,
            fault,
            reports: share.calls().saturating_sub(before),
            payable: 0,
        };
        leave(rt, desk, &mut share);
        share
    }
}

/// How the dispenser's run ended, and the millilitres then payable.
#[derive(Clone, Copy, Debug, PartialEq, Eq)]
struct Evening {
    sold: u64,
    refused: u64,
    fault: Option<DispenserFault>,
    reports: u64,
    payable: u64,
}

/// A day with ten thousand rows, from reading 0.
fn evening_of<R: Wait + Abort + Eprint>(
    rt: &R,
    alloc: Global,
    release: Option<Preset>,
    steps: Vec<Step>,
) -> Result<Evening, NoMemory> {
    let config = one_point(rt, alloc, 10_000, 0)?;
    let fuelling = Fuelling {
        release,
        dispenser: 1,
        script: Script::new(steps),
        polls: 3,
    };
    run_fuelling(rt, alloc, &config, &fuelling)
}

/// Runs a day of this fuelling, and tells how it ended.
fn run_fuelling<R: Wait + Abort + Eprint>(
    rt: &R,
    alloc: Global,
    config: &SiteConfig,
    fuelling: &Fuelling,
) -> Result<Evening, NoMemory> {
    let evening = Evening {
        sold: 0,
        refused: 0,
        fault: None,
        reports: 0,
        payable: 0,
    };
    let mut day = FuellingDay {
        config,
        fuelling,
        evening,
    };
    let settled = run_day(rt, alloc, config, &mut day)?;
    Ok(Evening {
        payable: payable(rt, &settled),
        ..day.evening
    })
}

/// The millilitres of diesel that are payable.
fn payable(rt: &impl Abort, settled: &Settled) -> u64 {
    let products = settled.book.products.as_slice();
    assert_eq!(rt; products.len(), 1);
    products[0].payable
}

#[test]
fn preset_of_a_volume(rt: HostRuntime) -> Result<(), Fail> {
    let steps = [
        lift(&rt, 1),
        pump(&rt, 2_000),
        pump(&rt, 2_000),
        Step::HangUp,
    ];
    let steps = Vec::from_array(rt.alloc(), steps)?;
    let seen = evening_of(&rt, rt.alloc(), Some(Preset::Volume(3_000)), steps)?;
    assert!(rt; seen.sold == 1 && seen.refused == 0 && seen.fault.is_none());
    assert!(rt; seen.reports == 4 && seen.payable == 3_000);
    Ok(())
}

#[test]
fn preset_of_money(rt: HostRuntime) -> Result<(), Fail> {
    let steps = [lift(&rt, 1), pump(&rt, 20_000), pump(&rt, 1), Step::HangUp];
    let steps = Vec::from_array(rt.alloc(), steps)?;
    let seen = evening_of(&rt, rt.alloc(), Some(Preset::Money(2_000)), steps)?;
    assert!(rt; seen.sold == 1 && seen.refused == 0 && seen.fault.is_none());
    assert!(rt; seen.reports == 4 && seen.payable == 13_336);
    Ok(())
}

#[test]
fn polls_spent(rt: HostRuntime) -> Result<(), Fail> {
    let steps = [Step::WaitFor(PointState::Calling), Step::Offline];
    let steps = Vec::from_array(rt.alloc(), steps)?;
    let seen = evening_of(&rt, rt.alloc(), None, steps)?;
    assert!(rt; seen.fault == Some(DispenserFault::PollsSpent));
    assert!(rt; seen.sold == 0 && seen.refused == 0 && seen.reports == 0);
    Ok(())
}

#[test]
fn state_seen(rt: HostRuntime) -> Result<(), Fail> {
    let steps = [
        Step::WaitFor(PointState::Idle),
        lift(&rt, 1),
        Step::WaitFor(PointState::Calling),
        Step::HangUp,
    ];
    let steps = Vec::from_array(rt.alloc(), steps)?;
    let seen = evening_of(&rt, rt.alloc(), None, steps)?;
    assert!(rt; seen.fault.is_none() && seen.refused == 0);
    assert!(rt; seen.sold == 0 && seen.reports == 2);
    Ok(())
}

/// It is offline in mid-fuelling, and online again; a second Online is refused.
#[test]
fn offline_and_online(rt: HostRuntime) -> Result<(), Fail> {
    let steps = [
        lift(&rt, 1),
        pump(&rt, 5_000),
        Step::Offline,
        Step::Online,
        Step::Online,
        Step::WaitFor(PointState::Closed),
    ];
    let steps = Vec::from_array(rt.alloc(), steps)?;
    let seen = evening_of(&rt, rt.alloc(), Some(Preset::Unset), steps)?;
    assert!(rt; seen.sold == 1 && seen.refused == 1 && seen.fault.is_none());
    assert!(rt; seen.reports == 5 && seen.payable == 5_000);
    Ok(())
}

/// A flow at a point that calls is refused, and not kept: the nozzle is put back at the reading
/// that the site knows. So is one of more than a report may grow by.
#[test]
fn refused_flows(rt: HostRuntime) -> Result<(), Fail> {
    let steps = [lift(&rt, 1), pump(&rt, 500), Step::HangUp];
    let steps = Vec::from_array(rt.alloc(), steps)?;
    let seen = evening_of(&rt, rt.alloc(), None, steps)?;
    assert!(rt; seen.sold == 0 && seen.refused == 1 && seen.fault.is_none());
    assert!(rt; seen.reports == 3 && seen.payable == 0);
    let steps = [
        lift(&rt, 1),
        pump(&rt, 1_000_001),
        pump(&rt, 1_000_000),
        Step::HangUp,
    ];
    let steps = Vec::from_array(rt.alloc(), steps)?;
    let seen = evening_of(&rt, rt.alloc(), Some(Preset::Unset), steps)?;
    assert!(rt; seen.sold == 1 && seen.refused == 1 && seen.fault.is_none());
    assert!(rt; seen.reports == 4 && seen.payable == 1_000_000);
    Ok(())
}

/// A meter at its end: the flow is cut to what it can still count.
#[test]
fn greatest_reading(rt: HostRuntime) -> Result<(), Fail> {
    let config = one_point(&rt, rt.alloc(), 10_000, 999_999_999_990)?;
    let steps = [lift(&rt, 1), pump(&rt, 100), pump(&rt, 1), Step::HangUp];
    let fuelling = Fuelling {
        release: Some(Preset::Unset),
        dispenser: 1,
        script: Script::new(Vec::from_array(rt.alloc(), steps)?),
        polls: 1,
    };
    let seen = run_fuelling(&rt, rt.alloc(), &config, &fuelling)?;
    assert!(rt; seen.sold == 1 && seen.refused == 0 && seen.payable == 9);
    Ok(())
}

/// The dispenser of a point that isn't there: each report is refused.
#[test]
fn no_such_point(rt: HostRuntime) -> Result<(), Fail> {
    let config = one_point(&rt, rt.alloc(), 10_000, 7)?;
    let steps = [Step::Online, lift(&rt, 8), pump(&rt, 9), Step::HangUp];
    let fuelling = Fuelling {
        release: None,
        dispenser: 64,
        script: Script::new(Vec::from_array(rt.alloc(), steps)?),
        polls: 1,
    };
    let seen = run_fuelling(&rt, rt.alloc(), &config, &fuelling)?;
    assert!(rt; seen.sold == 0 && seen.refused == 4 && seen.fault.is_none());
    assert_eq!(rt; seen.reports, 4);
    Ok(())
}

/// The book has room for one report beside the till's two calls.
#[test]
fn full_book(rt: HostRuntime) -> Result<(), Fail> {
    let config = one_point(&rt, rt.alloc(), 3, 0)?;
    let steps = [lift(&rt, 1), Step::HangUp, Step::Offline];
    let fuelling = Fuelling {
        release: None,
        dispenser: 1,
        script: Script::new(Vec::from_array(rt.alloc(), steps)?),
        polls: 1,
    };
    let seen = run_fuelling(&rt, rt.alloc(), &config, &fuelling)?;
    assert!(rt; seen.fault == Some(DispenserFault::BookFull) && seen.reports == 1);
    Ok(())
}
