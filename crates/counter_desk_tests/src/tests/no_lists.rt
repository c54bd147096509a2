//! A crew of no lists: nobody works, and the day is settled.

use super::crews::run_crews;
use counter_desk::OpenGate;
use forecourt_engines::known_site_of;
use std::test::Fail;

#[test]
fn no_lists(rt: HostRuntime) -> Result<(), Fail> {
    let alloc = rt.alloc();
    let config = known_site_of(alloc, 1_000_000)?;
    let mut crews = Vec::new(alloc);
    crews.push(Vec::new(alloc))?;
    let day = run_crews(&rt, alloc, &config, &OpenGate, &crews)?;
    assert_eq!(rt; day.ends.len(), 0);
    assert_eq!(rt; day.settled.rows, 0);
    assert_eq!(rt; day.settled.shares, 0);
    Ok(())
}
