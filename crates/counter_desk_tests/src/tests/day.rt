//! A day of one share: a desk is opened, something is done there, and it is settled. If an
//! allocation fails, the same is asked once more.

ghost use Rattle.std.specs.Prelude.{◌≡◌, ◌^◌};

use counter_desk::{Desk, Naming, Root, SettleFault, Settled, Share, Unsettled};
use site_base::{NoMemory, SiteConfig};
use std::alloc::Global;
use std::marker::Brand;
use std::process::Abort;
use std::sync::Wait;
use std::sync::ledger::{Blank, Ledger};

/// What is done through the share of a day.
pub trait Day {
    /// Works through the share, and hands it back.
    fn work<L: Ledger, C: Naming, R: Wait + Abort + Eprint>(
        &mut self,
        rt: &R,
        alloc: Global,
        desk: &Desk<L, C>,
        share: Share<L, C>,
    ) -> Share<L, C>;
}

/// Prints that an allocation failed in this run.
pub fn say_failed(rt: &impl Eprint) {
    let _ = rt.eprintln("an allocation failed");
}

/// Runs a day on the site of this configuration.
pub fn run_day<D: Day, R: Wait + Abort + Eprint>(
    rt: &R,
    alloc: Global,
    config: &SiteConfig,
    day: &mut D,
) -> Result<Settled, NoMemory> {
    run_named::<Brand, Brand, D, R>(rt, alloc, Blank::new(1 << 63), config, day)
}

/// The same, with names for the ledger of calls and for the configuration.
fn run_named<L: Ledger, C: Naming, D: Day, R: Wait + Abort + Eprint>(
    rt: &R,
    alloc: Global,
    blank: Blank,
    config: &SiteConfig,
    day: &mut D,
) -> Result<Settled, NoMemory>
    requires ledger { (blank.name ≡ L.name) × (blank.parts ≡ L.parts) × (blank.parts ≡ 2 ^ 63) }
    requires config { config.now ≡ C.config }
{
    let (desk, root) = Desk::<L, C>::try_open(alloc, blank, config)?;
    let mut root = root;
    let share = give(rt, &mut root);
    let share = day.work(rt, alloc, &desk, share);
    root.take_back(share);
    assert!(rt; root.out() == 0, "a share is out");
    match desk.settle(alloc, root) {
        Ok(settled) => Ok(settled),
        Err(unsettled) => {
            say_failed(rt);
            Ok(settle_again(rt, alloc, unsettled))
        }
    }
}

/// A share of the root.
fn give<L: Ledger, C: Naming>(rt: &(impl Abort + Eprint), root: &mut Root<L, C>) -> Share<L, C> {
    match root.give() {
        Ok(share) => return share,
        Err(NoMemory) => say_failed(rt),
    }
    match root.give() {
        Ok(share) => share,
        Err(NoMemory) => panic!(rt; "no share"),
    }
}

/// Settles after an allocation failed.
fn settle_again<L: Ledger, C: Naming>(
    rt: &impl Abort,
    alloc: Global,
    unsettled: Unsettled<L, C>,
) -> Settled {
    let Unsettled { fault, desk, root } = unsettled;
    assert!(rt; fault == SettleFault::NoMemory, "a strange receipt");
    assert!(rt; root.out() == 0, "a share is out");
    match desk.settle(alloc, root) {
        Ok(settled) => settled,
        Err(_) => panic!(rt; "the day isn't settled"),
    }
}
