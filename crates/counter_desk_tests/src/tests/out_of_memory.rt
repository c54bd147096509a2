//! A day of one share: a sale is paid, and a snapshot sees it. Each allocation may fail once.

use super::calls::{by_till, hang_up, lift, point, sale, till};
use super::day::{Day, run_day, say_failed};
use super::snapshot::see_opening;
use counter_desk::{Desk, Naming, Share};
use forecourt_engines::known_site_of;
use site_base::{
    Actor, Answer, Cents, Event, Mills, NoMemory, NoRow, PointState, Preset, ProductView, Refusal,
    Reply, Seq, TILLS,
};
use std::alloc::Global;
use std::process::Abort;
use std::sync::Wait;
use std::sync::ledger::Ledger;
use std::test::Fail;

#[test]
fn each_refused(rt: HostRuntime) -> Result<(), Fail> {
    let config = match known_site_of(rt.alloc(), 1_000_000) {
        Ok(config) => config,
        Err(NoMemory) => {
            say_failed(&rt);
            known_site_of(rt.alloc(), 1_000_000)?
        }
    };
    let mut day = PaidDay {
        sees_opening: false,
    };
    let settled = match run_day(&rt, rt.alloc(), &config, &mut day) {
        Ok(settled) => settled,
        Err(NoMemory) => {
            say_failed(&rt);
            run_day(&rt, rt.alloc(), &config, &mut day)?
        }
    };
    assert_eq!(rt; settled.rows, 12);
    assert_eq!(rt; settled.cents, 1_500);
    assert_eq!(rt; settled.millilitres, 10_000);
    assert_eq!(rt; settled.shares, 1);
    Ok(())
}

/// A day in which a sale is paid. If it is asked for, the opening site is read first.
#[derive(Drop)]
pub struct PaidDay {
    pub sees_opening: bool,
}

impl Day for PaidDay {
    fn work<L: Ledger, C: Naming, R: Wait + Abort + Eprint>(
        &mut self,
        rt: &R,
        alloc: Global,
        desk: &Desk<L, C>,
        share: Share<L, C>,
    ) -> Share<L, C> {
        let mut share = share;
        if self.sees_opening {
            assert!(rt; see_opening(rt, alloc, desk).is_ok(), "no figures");
        }
        pay(rt, alloc, desk, &mut share);
        see(rt, alloc, desk, 10);
        leave(rt, desk, &mut share, 1);
        leave(rt, desk, &mut share, 2);
        assert!(rt; share.calls() == 12 && share.cents() == 1_500);
        assert_eq!(rt; share.millilitres(), 10_000);
        share
    }
}

/// Makes a call. After a failed allocation the share and the site are as before, and the call is
/// made again.
fn make_call<L: Ledger, C: Naming, R: Wait + Abort + Eprint>(
    rt: &R,
    alloc: Global,
    desk: &Desk<L, C>,
    share: &mut Share<L, C>,
    actor: &Actor,
    event: &Event,
) -> Reply {
    let (calls, cents, millilitres) = (share.calls(), share.cents(), share.millilitres());
    owes_both(rt, share, calls);
    match &desk.submit(rt, share, *actor, *event) {
        Ok(placed) => return placed.reply,
        Err(NoRow::NoMemory) => say_failed(rt),
        Err(NoRow::BookFull) => panic!(rt; "the book is full"),
    }
    assert_eq!(rt; share.calls(), calls);
    assert!(rt; share.cents() == cents && share.millilitres() == millilitres);
    owes_both(rt, share, calls);
    see(rt, alloc, desk, calls);
    match &desk.submit(rt, share, *actor, *event) {
        Ok(placed) => placed.reply,
        Err(_) => panic!(rt; "no row"),
    }
}

/// After the first call of the day the share owes till 1, after the second till 2 as well, and no
/// other till.
fn owes_both<L: Ledger, C: Naming, R: Abort>(rt: &R, share: &Share<L, C>, calls: u64) {
    for number in 1..=TILLS {
        let is_owed = u64::from(number) <= calls.min(2);
        assert!(rt; share.owes(till(rt, number)) == is_owed, "another debt");
    }
}

/// Tills 1 and 2 sign on. Till 1 sells 10,000 ml of diesel at point 1, and the sale is paid once.
fn pay<L: Ledger, C: Naming, R: Wait + Abort + Eprint>(
    rt: &R,
    alloc: Global,
    desk: &Desk<L, C>,
    share: &mut Share<L, C>,
) {
    let open = Event::Open(point(rt, 1));
    let release = Event::Release(point(rt, 1), Preset::Unset);
    let lock = Event::Lock(point(rt, 1), sale(rt, 1));
    let clear = Event::Clear(point(rt, 1), sale(rt, 1));
    let done = Ok(Answer::Done);
    expect(rt, alloc, desk, share, 1, &Event::SignOn, &done);
    expect(rt, alloc, desk, share, 2, &Event::SignOn, &done);
    expect(rt, alloc, desk, share, 1, &open, &done);
    expect(rt, alloc, desk, share, 1, &release, &done);
    fuel(rt, alloc, desk, share);
    expect(rt, alloc, desk, share, 1, &lock, &Ok(Answer::Locked));
    let cleared = Ok(Answer::Cleared(Cents::new(1_500).expect(rt, "cents")));
    expect(rt, alloc, desk, share, 1, &clear, &cleared);
    let twice = Err(Refusal::AlreadyCleared(till(rt, 1)));
    expect(rt, alloc, desk, share, 1, &clear, &twice);
    expect(rt, alloc, desk, share, 2, &lock, &twice);
}

/// 10,000 ml of diesel flow at point 1 at 1500 mills, and are the shift's first sale.
fn fuel<L: Ledger, C: Naming, R: Wait + Abort + Eprint>(
    rt: &R,
    alloc: Global,
    desk: &Desk<L, C>,
    share: &mut Share<L, C>,
) {
    let start = Ok(Answer::Start {
        preset: Preset::Unset,
        price: Mills::new(1_500).expect(rt, "a price"),
    });
    let sold = Ok(Answer::Sold {
        seq: Seq::new(1).expect(rt, "a number"),
        growth: 10_000,
    });
    let (dispenser, lifted) = &lift(rt, 1, 0);
    assert!(rt;
        make_call(rt, alloc, desk, share, dispenser, lifted) == start,
        "no start"
    );
    let (dispenser, hung_up) = &hang_up(rt, 1, 10_000);
    assert!(rt;
        make_call(rt, alloc, desk, share, dispenser, hung_up) == sold,
        "no sale"
    );
}

/// A call of a till is answered so.
fn expect<L: Ledger, C: Naming, R: Wait + Abort + Eprint>(
    rt: &R,
    alloc: Global,
    desk: &Desk<L, C>,
    share: &mut Share<L, C>,
    number: u8,
    event: &Event,
    reply: &Reply,
) {
    let found = &make_call(rt, alloc, desk, share, &by_till(rt, number), event);
    assert!(rt; found == reply, "answered otherwise");
}

/// The snapshot has the figures of so many calls of that day, and the point is in the state that
/// these led to.
fn see<L: Ledger, C: Naming, R: Wait + Abort + Eprint>(
    rt: &R,
    alloc: Global,
    desk: &Desk<L, C>,
    calls: u64,
) {
    let totals = match desk.snapshot(rt, alloc) {
        Ok(totals) => Ok(totals),
        Err(NoMemory) => {
            say_failed(rt);
            desk.snapshot(rt, alloc)
        }
    };
    match totals {
        Ok(totals) => {
            assert_eq!(rt; totals.rows, calls);
            let (products, tills) = (totals.products.as_slice(), totals.tills.as_slice());
            assert!(rt; products.len() == 2 && tills.len() == 32);
            volumes(rt, &products[0], calls);
            volumes(rt, &products[1], 0);
            let (clears, cents) = if calls < 8 { (0, 0) } else { (1, 1_500) };
            assert!(rt; tills[0].1 == clears && tills[0].2 == cents);
            assert!(rt; tills[1].1 == 0 && tills[1].2 == 0);
        }
        Err(NoMemory) => panic!(rt; "no figures"),
    }
    match &desk.point(rt, point(rt, 1)) {
        Some(view) => assert!(rt; view.state == state_after(calls)),
        None => panic!(rt; "no point"),
    }
}

/// The state of point 1 after so many calls: the third opens it, the fourth releases it, then a
/// nozzle is lifted and put back.
fn state_after(calls: u64) -> PointState {
    match calls {
        0..=2 => PointState::Closed,
        4 => PointState::Authorised,
        5 => PointState::Started,
        _ => PointState::Idle,
    }
}

/// The product's volumes after so many calls: the sixth makes a sale of 10,000 ml, the seventh
/// locks it, and the eighth clears it.
fn volumes(rt: &impl Abort, product: &ProductView, calls: u64) {
    let (payable, locked, cleared) = match calls {
        0..=5 => (0, 0, 0),
        6 => (10_000, 0, 0),
        7 => (0, 10_000, 0),
        _ => (0, 0, 10_000),
    };
    assert!(rt; product.payable == payable && product.locked == locked);
    assert!(rt; product.cleared == cleared && product.running == 0 && product.adjusted == 0);
    assert!(rt; product.metered == if calls < 6 { 0 } else { 10_000 });
}

/// Signs off a till to which the share owes that.
pub fn leave<L: Ledger, C: Naming, R: Wait + Abort>(
    rt: &R,
    desk: &Desk<L, C>,
    share: &mut Share<L, C>,
    number: u8,
) {
    let t = till(rt, number);
    assert!(rt; share.owes(t), "the till isn't owed");
    let calls = share.calls();
    match &desk.leave(rt, share, t) {
        Some(placed) => {
            assert!(rt; placed.place == calls && placed.reply == Ok(Answer::Done));
            assert!(rt; !share.owes(t), "the till is owed");
        }
        None => panic!(rt; "the till wasn't signed on"),
    }
}
