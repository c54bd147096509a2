//! One session in memory, at a desk of its own.

ghost use Rattle.std.specs.Prelude.{◌≡◌, ◌^◌};

use super::noting::{Noted, Noting};
use super::peers::{Peer, Told, new_told};
use counter_desk::{Desk, Naming, OpenGate, SettleFault, Settled, Share};
use devices::Counted;
use site_base::{Actor, Event, NoMemory, SiteConfig, TILLS, TillNo};
use std::alloc::Global;
use std::io::{Read, Write};
use std::marker::Brand;
use std::process::Abort;
use std::sync::Wait;
use std::sync::ledger::{Blank, Ledger};
use till_session::{DeskCounter, Session, SessionEnd};

/// What was seen of a session.
#[derive(Drop)]
pub struct Seen {
    pub end: SessionEnd,
    /// What the peer was sent, and in how many calls of its writer.
    pub told: Vec<u8>,
    pub calls: u64,
    pub noted: Noted,
    pub settled: Settled,
}

/// Opens a desk, makes these calls, serves the session, signs off each till to which that is owed,
/// and settles.
pub fn session<R: Wait + Abort>(
    rt: &R,
    alloc: Global,
    config: &SiteConfig,
    calls: &[(Actor, Event)],
    peer: Peer,
) -> Result<Seen, NoMemory> {
    session_of::<Brand, Brand, R>(rt, alloc, Blank::new(1 << 63), config, calls, peer)
}

fn session_of<L: Ledger, C: Naming, R: Wait + Abort>(
    rt: &R,
    alloc: Global,
    blank: Blank,
    config: &SiteConfig,
    calls: &[(Actor, Event)],
    peer: Peer,
) -> Result<Seen, NoMemory>
    requires ledger { (blank.name ≡ L.name) × (blank.parts ≡ L.parts) × (blank.parts ≡ 2 ^ 63) }
    requires config { config.now ≡ C.config }
{
    let turns = peer.turns;
    let told = new_told(alloc)?;
    let (sender, taker) = peer.into_ends(Vec::with_capacity(alloc, 1_000)?, &told)?;
    let mut reader = Counted::new(sender);
    let mut writer = Counted::new(taker);
    let (desk, root) = Desk::<L, C>::try_open(alloc, blank, config)?;
    let mut root = root;
    let mut share = root.give()?;
    for call in calls {
        let (actor, event) = call;
        assert!(rt;
            desk.submit(rt, &mut share, *actor, *event).is_ok(),
            "no row"
        );
    }
    let (end, noted) = serve_noting(
        rt,
        alloc,
        &desk,
        &mut share,
        &mut reader,
        &mut writer,
        told,
        turns,
    );
    leave_all(rt, &desk, &mut share);
    root.take_back(share);
    assert!(rt; root.out() == 0, "a share is out");
    let told = Vec::from_slice(alloc, writer.get_ref().octets())?;
    let calls = writer.get_ref().calls();
    match desk.settle(alloc, root) {
        Ok(settled) => Ok(Seen {
            end,
            told,
            calls,
            noted,
            settled,
        }),
        Err(unsettled) => {
            assert!(rt; unsettled.fault == SettleFault::NoMemory, "not settled");
            Err(NoMemory)
        }
    }
}

/// Serves a session by a counter that notes its calls.
fn serve_noting<'a, L: Ledger, C: Naming, R: Wait, I: Read, O: Write>(
    rt: &'a R,
    alloc: Global,
    desk: &'a Desk<L, C>,
    share: &'a mut Share<L, C>,
    reader: &mut Counted<I>,
    writer: &mut Counted<O>,
    told: Told,
    turns: u64,
) -> (SessionEnd, Noted) {
    let counter = DeskCounter::new(rt, desk, share, &OpenGate);
    let mut counter = Noting::new(counter, told);
    let end = Session::run(alloc, reader, writer, &mut counter, turns);
    let (noted, _counter) = counter.into_parts();
    (end, noted)
}

/// Signs off each till that the share owes.
fn leave_all<L: Ledger, C: Naming, R: Wait>(rt: &R, desk: &Desk<L, C>, share: &mut Share<L, C>) {
    for number in 1..=TILLS {
        if let Some(till) = TillNo::new(number) {
            if share.owes(till) {
                let _ = desk.leave(rt, share, till);
            }
        }
    }
}
