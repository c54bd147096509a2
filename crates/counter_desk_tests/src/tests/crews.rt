//! Days of crews: a desk is opened, each crew's workers make the calls of their lists in parallel,
//! one crew after the other, and the desk is settled.

ghost use Rattle.std.specs.Prelude.{◌≡◌, ◌^◌};

use super::calls::Calls;
use counter_desk::{Desk, Gate, ListEnd, Naming, Root, Settled, WORKERS, crew};
use site_base::{NoMemory, SiteConfig};
use std::alloc::Global;
use std::marker::Brand;
use std::process::Abort;
use std::sync::ledger::{Blank, Ledger};
use std::sync::{Mutex, Wait};
use std::thread::Threads;

/// How each worker's list ended, crew by crew, and the settlement.
#[derive(Drop)]
pub struct CrewsDay {
    pub ends: Vec<ListEnd>,
    pub settled: Settled,
}

/// Runs a day of these crews. Each crew has a list of calls for each of its workers.
pub fn run_crews<G: Gate + Sync, R: Threads + Wait + Abort + Sync>(
    rt: &R,
    alloc: Global,
    config: &SiteConfig,
    gate: &G,
    crews: &[Vec<Calls>],
) -> Result<CrewsDay, NoMemory> {
    run_named::<Brand, Brand, G, R>(rt, alloc, Blank::new(1 << 63), config, gate, crews)
}

/// The same, with names for the ledger of calls and for the configuration.
fn run_named<
    L: Ledger + Send + Sync,
    C: Naming + Send + Sync,
    G: Gate + Sync,
    R: Threads + Wait + Abort + Sync,
>(
    rt: &R,
    alloc: Global,
    blank: Blank,
    config: &SiteConfig,
    gate: &G,
    crews: &[Vec<Calls>],
) -> Result<CrewsDay, NoMemory>
    requires ledger { (blank.name ≡ L.name) × (blank.parts ≡ L.parts) × (blank.parts ≡ 2 ^ 63) }
    requires config { config.now ≡ C.config }
{
    let (desk, root) = Desk::<L, C>::try_open(alloc, blank, config)?;
    let root = Mutex::new(root);
    let mut ends = Vec::new(alloc);
    for lists in crews {
        add_ends(rt, alloc, &desk, &root, gate, lists, &mut ends)?;
    }
    let root = root.into_inner();
    assert!(rt; root.out() == 0, "a share is out");
    match desk.settle(alloc, root) {
        Ok(settled) => Ok(CrewsDay { ends, settled }),
        Err(_) => panic!(rt; "the day isn't settled"),
    }
}

/// A crew makes the calls of these lists; its ends come behind the others.
fn add_ends<
    L: Ledger + Send + Sync,
    C: Naming + Send + Sync,
    G: Gate + Sync,
    R: Threads + Wait + Abort + Sync,
>(
    rt: &R,
    alloc: Global,
    desk: &Desk<L, C>,
    root: &Mutex<Root<L, C>>,
    gate: &G,
    lists: &[Calls],
    ends: &mut Vec<ListEnd>,
) -> Result<(), NoMemory> {
    assert!(rt; lists.len() <= WORKERS, "a crew is too large");
    for end in &crew(rt, alloc, desk, root, gate, lists)? {
        ends.push(*end)?;
    }
    Ok(())
}
