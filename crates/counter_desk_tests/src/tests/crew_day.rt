//! A day of a crew: one worker sets the site up, and two then clear the same sales.

use super::calls::{Calls, clears, setup};
use super::crews::run_crews;
use counter_desk::{ListEnd, OpenGate};
use forecourt_engines::known_site_of;
use site_base::NoMemory;
use std::alloc::Global;
use std::process::Abort;
use std::test::Fail;

#[test]
fn crew_day(rt: HostRuntime) -> Result<(), Fail> {
    let alloc = rt.alloc();
    let config = known_site_of(alloc, 1_000_000)?;
    let crews = crews_of(&rt, alloc)?;
    for _ in 0..20 {
        let day = run_crews(&rt, alloc, &config, &OpenGate, &crews)?;
        assert_ends(&rt, &day.ends);
        assert_eq!(rt; day.settled.rows, 81);
        assert_eq!(rt; day.settled.cents, 15_000);
        assert_eq!(rt; day.settled.millilitres, 100_000);
        assert_eq!(rt; day.settled.shares, 3);
        assert_eq!(rt; day.settled.book.rows, 81);
    }
    Ok(())
}

/// A crew of one that sets the site up, and a crew of two that clears the same sales.
fn crews_of(rt: &impl Abort, alloc: Global) -> Result<Vec<Vec<Calls>>, NoMemory> {
    let mut first = Vec::new(alloc);
    first.push(setup(rt, alloc, 3)?)?;
    let mut second = Vec::new(alloc);
    second.push(clears(rt, alloc, 1)?)?;
    second.push(clears(rt, alloc, 2)?)?;
    let mut crews = Vec::new(alloc);
    crews.push(first)?;
    crews.push(second)?;
    Ok(crews)
}

/// All calls are answered; of the two that clear the same ten sales, each sale is cleared once.
fn assert_ends(rt: &impl Abort, ends: &[ListEnd]) {
    assert_eq!(rt; ends.len(), 3);
    assert!(rt; ends[0].placed == 36 && ends[0].accepted == 36);
    assert!(rt; ends[1].placed == 21 && ends[2].placed == 21);
    assert!(rt; ends[1].accepted <= 21 && ends[2].accepted <= 21);
    assert_eq!(rt; ends[1].accepted.saturating_add(ends[2].accepted), 22);
    for end in ends {
        assert!(rt; end.fault.is_none());
    }
}
