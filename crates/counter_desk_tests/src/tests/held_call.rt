//! Two workers in parallel: the one whose till is held at the gate continues once the other was
//! answered.

use super::calls::{by_till, sign_on_both};
use super::crews::run_crews;
use counter_desk::testing::HoldingGate;
use forecourt_engines::known_site_of;
use std::test::Fail;

#[test]
fn held_call(rt: HostRuntime) -> Result<(), Fail> {
    let alloc = rt.alloc();
    let config = known_site_of(alloc, 1_000_000)?;
    let crews = sign_on_both(&rt, alloc)?;
    for held in 1..3 {
        let gate = HoldingGate::new(by_till(&rt, held));
        let day = run_crews(&rt, alloc, &config, &gate, &crews)?;
        assert!(rt; !gate.has_given_up(), "the other worker didn't run");
        assert_eq!(rt; day.ends.len(), 2);
        for end in &day.ends {
            assert!(rt; end.placed == 1 && end.accepted == 1 && end.fault.is_none());
        }
        assert_eq!(rt; day.settled.rows, 4);
        assert_eq!(rt; day.settled.shares, 2);
    }
    Ok(())
}
