//! A desk whose book allows three rows. Tills are signed off beyond that.

use super::calls::{by_till, point};
use super::day::{Day, run_day};
use super::out_of_memory::leave;
use counter_desk::{Desk, Naming, Share};
use forecourt_engines::known_site_of;
use site_base::{Actor, Event, NoRow};
use std::alloc::Global;
use std::process::Abort;
use std::sync::Wait;
use std::sync::ledger::Ledger;
use std::test::Fail;

#[test]
fn full_desk(rt: HostRuntime) -> Result<(), Fail> {
    let config = known_site_of(rt.alloc(), 3)?;
    let settled = run_day(&rt, rt.alloc(), &config, &mut FullDesk)?;
    assert_eq!(rt; settled.rows, 5);
    assert_eq!(rt; settled.cents, 0);
    assert_eq!(rt; settled.millilitres, 0);
    Ok(())
}

/// Two tills sign on, one of them opens a point, and the book is full.
#[derive(Drop)]
struct FullDesk;

impl Day for FullDesk {
    fn work<L: Ledger, C: Naming, R: Wait + Abort + Eprint>(
        &mut self,
        rt: &R,
        _alloc: Global,
        desk: &Desk<L, C>,
        share: Share<L, C>,
    ) -> Share<L, C> {
        let mut share = share;
        place(rt, desk, &mut share, &by_till(rt, 1), &Event::SignOn, 0);
        place(rt, desk, &mut share, &by_till(rt, 2), &Event::SignOn, 1);
        let open = Event::Open(point(rt, 1));
        place(rt, desk, &mut share, &by_till(rt, 1), &open, 2);
        let open = Event::Open(point(rt, 2));
        let placed = desk.submit(rt, &mut share, by_till(rt, 2), open);
        assert!(rt; placed == Err(NoRow::BookFull), "the book isn't full");
        leave(rt, desk, &mut share, 1);
        leave(rt, desk, &mut share, 2);
        share
    }
}

/// A call makes the row of this place.
fn place<L: Ledger, C: Naming, R: Wait + Abort>(
    rt: &R,
    desk: &Desk<L, C>,
    share: &mut Share<L, C>,
    actor: &Actor,
    event: &Event,
    place: u64,
) {
    match &desk.submit(rt, share, *actor, *event) {
        Ok(placed) => assert!(rt; placed.place == place && placed.reply.is_ok()),
        Err(_) => panic!(rt; "no row"),
    }
}
