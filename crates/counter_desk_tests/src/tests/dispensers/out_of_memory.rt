//! A run that a failed allocation ends continues with the steps that it left.

use super::site::{call, leave, lift, one_point, point, pump, till};
use crate::tests::day::{Day, run_day, say_failed};
use counter_desk::{Desk, Naming, Share};
use demo::{Dispenser, DispenserEnd, DispenserFault, Script, Step};
use site_base::{Event, NoMemory, PointState, Preset, SiteConfig};
use std::alloc::{AllocError, Global};
use std::process::Abort;
use std::sync::Wait;
use std::sync::ledger::Ledger;
use std::test::Fail;

#[test]
fn each_refused(rt: HostRuntime) -> Result<(), Fail> {
    let config = match one_point(&rt, rt.alloc(), 10_000, 0) {
        Ok(config) => config,
        Err(NoMemory) => {
            say_failed(&rt);
            one_point(&rt, rt.alloc(), 10_000, 0)?
        }
    };
    let day = &mut CutDay { config: &config };
    let settled = match run_day(&rt, rt.alloc(), &config, day) {
        Ok(settled) => settled,
        Err(NoMemory) => {
            say_failed(&rt);
            run_day(&rt, rt.alloc(), &config, day)?
        }
    };
    assert_eq!(rt; settled.rows, 8);
    assert_eq!(rt; settled.millilitres, 3_000);
    Ok(())
}

/// A day whose flow is cut by its preset.
#[derive(Drop)]
struct CutDay<'a> {
    config: &'a SiteConfig,
}

impl<'a> Day for CutDay<'a> {
    fn work<L: Ledger, C: Naming, R: Wait + Abort + Eprint>(
        &mut self,
        rt: &R,
        alloc: Global,
        desk: &Desk<L, C>,
        share: Share<L, C>,
    ) -> Share<L, C> {
        let mut share = share;
        let preset = Preset::Volume(3_000);
        call(rt, desk, &mut share, &Event::SignOn);
        call(rt, desk, &mut share, &Event::Open(point(rt, 1)));
        call(rt, desk, &mut share, &Event::Release(point(rt, 1), preset));
        let mut share = fuel(rt, alloc, desk, share, self.config);
        leave(rt, desk, &mut share);
        share
    }
}

/// The nozzle is lifted, 4,000 ml are asked for where the preset lets 3,000 through, and it is put
/// back. Where an allocation failed, the run made a receipt for each step before that, and another
/// run takes the rest.
fn fuel<L: Ledger, C: Naming, R: Wait + Abort + Eprint>(
    rt: &R,
    alloc: Global,
    desk: &Desk<L, C>,
    share: Share<L, C>,
    config: &SiteConfig,
) -> Share<L, C> {
    let before = share.calls();
    let mut dispenser = Dispenser::new(config, point(rt, 1));
    let DispenserEnd {
        share,
        sold,
        refused,
        fault,
    } = dispenser.run(rt, desk, share, &script_from(rt, alloc, 0), 1);
    assert!(rt; refused == 0 && sold <= 1);
    let taken = share.calls().saturating_sub(before);
    match fault {
        None => {
            assert!(rt; taken == 4 && sold == 1);
            return share;
        }
        Some(fault) => assert!(rt; fault == DispenserFault::NoMemory && taken < 4 && sold == 0),
    }
    say_failed(rt);
    see(rt, alloc, desk, &share, taken);
    let DispenserEnd {
        share,
        sold,
        refused,
        fault,
    } = dispenser.run(rt, desk, share, &script_from(rt, alloc, taken), 1);
    assert!(rt; sold == 1 && refused == 0 && fault.is_none());
    assert_eq!(rt; share.calls().saturating_sub(before), 4);
    share
}

/// After so many steps of the run: the share made a call for each behind the three that released
/// the point, it owes till 1, and the site has what these calls led to.
fn see<L: Ledger, C: Naming, R: Wait + Abort>(
    rt: &R,
    alloc: Global,
    desk: &Desk<L, C>,
    share: &Share<L, C>,
    taken: u64,
) {
    assert!(rt; share.calls() == taken.saturating_add(3) && share.owes(till(rt)));
    assert!(rt; share.millilitres() == flow_after(taken) && share.cents() == 0);
    let state = match taken {
        0 => PointState::Authorised,
        1 => PointState::Started,
        _ => PointState::Fuelling,
    };
    match &desk.point(rt, point(rt, 1)) {
        Some(view) => assert!(rt; view.state == state && view.volume == flow_after(taken)),
        None => panic!(rt; "no point"),
    }
    match desk.snapshot(rt, alloc) {
        Ok(totals) => {
            assert_eq!(rt; totals.rows, share.calls());
            let products = totals.products.as_slice();
            assert!(rt; products.len() == 1 && products[0].running == flow_after(taken));
            assert!(rt; products[0].metered == flow_after(taken) && products[0].payable == 0);
        }
        Err(NoMemory) => panic!(rt; "no figures"),
    }
}

/// The millilitres that flowed in so many steps.
fn flow_after(taken: u64) -> u64 {
    match taken {
        0..=1 => 0,
        2 => 2_000,
        _ => 3_000,
    }
}

/// The steps but for the first ones.
fn script_from(rt: &(impl Abort + Eprint), alloc: Global, taken: u64) -> Script {
    match steps_from(rt, alloc, taken) {
        Ok(script) => return script,
        Err(_) => say_failed(rt),
    }
    steps_from(rt, alloc, taken).expect(rt, "no script")
}

fn steps_from(rt: &impl Abort, alloc: Global, taken: u64) -> Result<Script, AllocError> {
    let all = [lift(rt, 1), pump(rt, 2_000), pump(rt, 2_000), Step::HangUp];
    let mut steps = Vec::new(alloc);
    for (place, step) in all.iter().enumerate() {
        if place as u64 >= taken {
            steps.push(*step)?;
        }
    }
    Ok(Script::new(steps))
}
