//! Tables that are run at desks: one desk for each site, at which one share submits the events. Of
//! the lines that ask a site something else only `leave` is answered, because a desk doesn't show
//! the others.

mod counter;

ghost use Rattle.std.specs.Prelude.{◌≡◌, ◌^◌};

use crate::desks::counter::Counter;
use crate::words::Step;
use anyhow::{bail, ensure};
use counter_desk::{Desk, Naming, Settled};
use site_base::SiteConfig;
use std::alloc::Global;
use std::marker::Brand;
use std::sync::Wait;
use std::sync::ledger::{Blank, Ledger};

/// Opens a desk for each site, and submits the events that follow it.
pub fn run_desks(
    rt: &(impl Print + Eprint + Wait),
    alloc: Global,
    steps: &[Step],
) -> anyhow::Result<()> {
    for at in 0..steps.len() {
        if let Some(Step::Site { config, alone }) = steps.get(at) {
            run_site(rt, alloc, config, *alone, &steps[at + 1..])?;
        }
    }
    Ok(())
}

/// Opens a desk, submits the events up to the next site, and settles. The settlement has as many
/// rows as were placed.
fn run_site(
    rt: &(impl Print + Eprint + Wait),
    alloc: Global,
    config: &SiteConfig,
    alone: bool,
    steps: &[Step],
) -> anyhow::Result<()> {
    let blank = Blank::new(1 << 63);
    let (placed, settled) = at_desk::<Brand, Brand, _>(rt, alloc, blank, config, alone, steps)?;
    ensure!(settled.rows == placed, "the desk has other rows");
    Ok(())
}

/// What one share placed at a desk of this site, and the settlement.
fn at_desk<L: Ledger, C: Naming, R: Print + Eprint + Wait>(
    rt: &R,
    alloc: Global,
    blank: Blank,
    config: &SiteConfig,
    alone: bool,
    steps: &[Step],
) -> anyhow::Result<(u64, Settled)>
    requires ledger { (blank.name ≡ L.name) × (blank.parts ≡ L.parts) × (blank.parts ≡ 2 ^ 63) }
    requires config { config.now ≡ C.config }
{
    let (desk, mut root) = Desk::<L, C>::try_open(alloc, blank, config)?;
    let mut share = root.give()?;
    let mut counter = Counter::new(alone);
    let told = counter.submit_all(rt, &desk, &mut share, steps);
    root.take_back(share);
    told?;
    match desk.settle(alloc, root) {
        Ok(settled) => Ok((counter.placed(), settled)),
        Err(unsettled) => bail!("the desk isn't settled: {}", unsettled.fault),
    }
}
