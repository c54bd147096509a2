//! A crew of two workers, one of which may not be started: its end says so, it has no share, and
//! the other works all the same. The test prints which one it is; `scripts/test faults` makes that
//! happen.

use super::calls::sign_on_both;
use super::crews::run_crews;
use counter_desk::{ListEnd, OpenGate, WorkFault};
use forecourt_engines::known_site_of;
use std::process::Abort;
use std::test::Fail;

#[test]
fn each_unstarted(rt: HostRuntime) -> Result<(), Fail> {
    let alloc = rt.alloc();
    let config = known_site_of(alloc, 1_000_000)?;
    let crews = sign_on_both(&rt, alloc)?;
    let day = run_crews(&rt, alloc, &config, &OpenGate, &crews)?;
    let started = count_started(&rt, &day.ends);
    assert_eq!(rt; day.settled.shares, started);
    // A SignOn of each, and its sign-off.
    assert_eq!(rt; day.settled.rows, started.saturating_mul(2));
    Ok(())
}

/// How many of the two workers were started. Each of these made its call, and no other made one.
fn count_started(rt: &(impl Abort + Eprint), ends: &[ListEnd]) -> u64 {
    assert_eq!(rt; ends.len(), 2);
    let (mut number, mut started) = (0u64, 0u64);
    for end in ends {
        number = number.saturating_add(1);
        if end.fault == Some(WorkFault::NoWorker) {
            assert!(rt; end.placed == 0 && end.accepted == 0, "it worked");
            let _ = eprintln!(rt; "worker {number} wasn't started");
        } else {
            assert!(rt; end.placed == 1 && end.accepted == 1 && end.fault.is_none());
            started = started.saturating_add(1);
        }
    }
    started
}
