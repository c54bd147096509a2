//! The server in memory.

ghost use Rattle.std.specs.Prelude.{◌≡◌, ◌≤◌, ◌^◌};
ghost use Rattle.till_session.specs.declared.server.TheConstants.{SESSIONS};

use super::calls::{by_till, octets};
use counter_desk::testing::HoldingGate;
use counter_desk::{Desk, Gate, Naming, OpenGate, Settled};
use forecourt_engines::known_site_of;
use site_base::{Actor, NoMemory, SiteConfig};
use std::alloc::Global;
use std::marker::Brand;
use std::process::Abort;
use std::sync::ledger::{Blank, Ledger};
use std::sync::{Mutex, Wait};
use std::test::Fail;
use std::thread::Threads;
use till_session::testing::Connections;
use till_session::{SessionEnd, SessionFault, serve};

/// The SignOns of so many tills, a connection each.
fn sign_ons(rt: &impl Abort, alloc: Global, tills: u8) -> Result<Vec<Vec<u8>>, NoMemory> {
    let mut ready = Vec::new(alloc);
    for till in 0..tills {
        let mut message = octets(rt, alloc, "01 01 02 01 00 41 00 04 01 01 31 00")?;
        if let Some(node) = message.get_mut(3) {
            *node = till.saturating_add(1);
        }
        ready.push(message)?;
    }
    Ok(ready)
}

/// How a day of a server ended.
#[derive(Drop)]
struct Day {
    ends: Vec<SessionEnd>,
    settled: Settled,
}

#[test]
fn held_call(rt: HostRuntime) -> Result<(), Fail> {
    let alloc = rt.alloc();
    let config = known_site_of(alloc, 1_000_000)?;
    for held in 1..3 {
        let gate = HoldingGate::new(by_till(&rt, held));
        let listener = Connections::new(sign_ons(&rt, alloc, 2)?, 0);
        let day = one_day(&rt, alloc, &config, listener, &gate, 2)?;
        assert!(rt; !gate.has_given_up(), "the other worker didn't run");
        assert!(rt; day.ends.len() == 2 && day.settled.rows == 4 && day.settled.shares == 2);
        for end in &day.ends {
            assert!(rt; end.fault.is_none() && end.asked == 1 && end.signed_off);
        }
    }
    Ok(())
}

#[test]
fn accept_fails(rt: HostRuntime) -> Result<(), Fail> {
    let alloc = rt.alloc();
    let config = known_site_of(alloc, 1_000_000)?;
    for k in 1..4usize {
        let listener = Connections::new(sign_ons(&rt, alloc, 2)?, k as u64);
        let day = one_day(&rt, alloc, &config, listener, &OpenGate, 3)?;
        assert!(rt; day.ends.len() == 3 && day.settled.rows == 4 && day.settled.shares == 2);
        for (number, end) in day.ends.iter().enumerate() {
            let failed = end.fault == Some(SessionFault::Accept);
            assert!(rt; failed == (number == k - 1), "another session failed");
            assert!(rt; failed == (end.asked == 0) && failed == !end.signed_off);
        }
    }
    Ok(())
}

fn one_day<G: Gate + Sync, R: Threads + Wait + Abort + Sync>(
    rt: &R,
    alloc: Global,
    config: &SiteConfig,
    listener: Connections,
    gate: &G,
    sessions: usize,
) -> Result<Day, NoMemory>
    requires { (1 ≤ sessions) × (sessions ≤ SESSIONS) }
{
    day_of::<Brand, Brand, G, R>(
        rt,
        alloc,
        Blank::new(1 << 63),
        config,
        listener,
        gate,
        sessions,
    )
}

fn day_of<
    L: Ledger + Send + Sync,
    C: Naming + Send + Sync,
    G: Gate + Sync,
    R: Threads + Wait + Abort + Sync,
>(
    rt: &R,
    alloc: Global,
    blank: Blank,
    config: &SiteConfig,
    listener: Connections,
    gate: &G,
    sessions: usize,
) -> Result<Day, NoMemory>
    requires ledger { (blank.name ≡ L.name) × (blank.parts ≡ L.parts) × (blank.parts ≡ 2 ^ 63) }
    requires config { config.now ≡ C.config }
    requires sessions { (1 ≤ sessions) × (sessions ≤ SESSIONS) }
{
    let (desk, root) = Desk::<L, C>::try_open(alloc, blank, config)?;
    let root = Mutex::new(root);
    let ends = serve(
        rt, alloc, listener, &desk, &root, gate, 2, sessions, 1_000_000,
    )?;
    let root = root.into_inner();
    assert!(rt; root.out() == 0, "a share is out");
    match desk.settle(alloc, root) {
        Ok(settled) => Ok(Day { ends, settled }),
        Err(_) => panic!(rt; "the day isn't settled"),
    }
}
