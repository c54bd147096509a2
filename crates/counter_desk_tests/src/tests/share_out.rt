//! A share that is out: its desk isn't settled before it comes back.

ghost use Rattle.std.specs.Prelude.{◌≡◌, ◌^◌};

use super::calls::{by_till, point};
use super::out_of_memory::leave;
use counter_desk::{Desk, Naming, Root, SettleFault, Settled, Share, Unsettled, settle_all};
use forecourt_engines::known_site_of;
use site_base::{Event, NoMemory, SiteConfig};
use std::alloc::Global;
use std::marker::Brand;
use std::process::Abort;
use std::sync::Wait;
use std::sync::ledger::{Blank, Ledger};
use std::test::Fail;

#[test]
fn share_out(rt: HostRuntime) -> Result<(), Fail> {
    let config = known_site_of(rt.alloc(), 1_000_000)?;
    let settled = one_day(&rt, rt.alloc(), &config)?;
    assert_eq!(rt; settled.rows, 3);
    assert_eq!(rt; settled.shares, 1);
    Ok(())
}

fn one_day<R: Wait + Abort>(
    rt: &R,
    alloc: Global,
    config: &SiteConfig,
) -> Result<Settled, NoMemory> {
    day_of::<Brand, Brand, R>(rt, alloc, Blank::new(1 << 63), config)
}

fn day_of<L: Ledger, C: Naming, R: Wait + Abort>(
    rt: &R,
    alloc: Global,
    blank: Blank,
    config: &SiteConfig,
) -> Result<Settled, NoMemory>
    requires ledger { (blank.name ≡ L.name) × (blank.parts ≡ L.parts) × (blank.parts ≡ 2 ^ 63) }
    requires config { config.now ≡ C.config }
{
    let (desk, root) = Desk::<L, C>::try_open(alloc, blank, config)?;
    let mut root = root;
    match root.give() {
        Ok(share) => {
            let mut share = share;
            call(rt, &desk, &mut share, &Event::SignOn);
            call(rt, &desk, &mut share, &Event::Open(point(rt, 1)));
            let (desk, root) = settle_in_vain(rt, alloc, desk, root);
            settle_with(rt, alloc, desk, root, share)
        }
        Err(NoMemory) => panic!(rt; "no share"),
    }
}

/// Till 1 is answered.
fn call<L: Ledger, C: Naming, R: Wait + Abort>(
    rt: &R,
    desk: &Desk<L, C>,
    share: &mut Share<L, C>,
    event: &Event,
) {
    match &desk.submit(rt, share, by_till(rt, 1), *event) {
        Ok(placed) => assert!(rt; placed.reply.is_ok(), "refused"),
        Err(_) => panic!(rt; "no row"),
    }
}

/// The desk isn't settled while the share is out: 60, with the place behind its two rows. Desk and
/// root are handed back as they were.
fn settle_in_vain<L: Ledger, C: Naming, R: Wait + Abort>(
    rt: &R,
    alloc: Global,
    desk: Desk<L, C>,
    root: Root<L, C>,
) -> (Desk<L, C>, Root<L, C>) {
    assert_eq!(rt; root.out(), 1);
    match settle_all(rt, alloc, desk, root) {
        Ok(_) => panic!(rt; "settled while a share is out"),
        Err(unsettled) => {
            let Unsettled { fault, desk, root } = unsettled;
            assert!(rt; fault == SettleFault::StrangeReceipt(2), "another fault");
            assert_eq!(rt; fault.number(), 60);
            assert_eq!(rt; root.out(), 1);
            (desk, root)
        }
    }
}

/// The share comes back, once its till is left, and the desk is settled.
fn settle_with<L: Ledger, C: Naming, R: Wait + Abort>(
    rt: &R,
    alloc: Global,
    desk: Desk<L, C>,
    root: Root<L, C>,
    share: Share<L, C>,
) -> Result<Settled, NoMemory> {
    let (mut root, mut share) = (root, share);
    leave(rt, &desk, &mut share, 1);
    root.take_back(share);
    assert_eq!(rt; root.out(), 0);
    match settle_all(rt, alloc, desk, root) {
        Ok(settled) => Ok(settled),
        Err(_) => panic!(rt; "the day isn't settled"),
    }
}
