//! The session of two tills, in which each allocation may fail once.

use super::calls::{TWO_TILLS, octets};
use super::noting::Call;
use super::peers::Peer;
use super::sessions::{Seen, session};
use forecourt_engines::known_site_of;
use peer_talk::TalkFault;
use site_base::{NoMemory, SiteConfig, TillNo};
use std::alloc::Global;
use std::process::Abort;
use std::sync::Wait;
use std::test::Fail;
use till_session::SessionFault;

/// What may be told: all is well; the SignOn found no memory, so that the till isn't signed on; or
/// the Open found none.
const MAY_BE_TOLD: [&str; 3] = [
    "02 01 01 01 00 E1 00 08 01 01 01 01 00 03 01 00\
 02 01 01 01 00 E2 00 08 01 21 01 01 00 03 01 00 02 02 01 01 00 E3 00 05 01 01 01 01 39",
    "02 01 01 01 00 E1 00 05 01 01 01 01 1F\
 02 01 01 01 00 E2 00 05 01 21 01 01 01 02 02 01 01 00 E3 00 05 01 01 01 01 39",
    "02 01 01 01 00 E1 00 08 01 01 01 01 00 03 01 00\
 02 01 01 01 00 E2 00 05 01 21 01 01 1F 02 02 01 01 00 E3 00 05 01 01 01 01 39",
];

/// Says that an allocation failed in this run.
fn tell_failure(rt: &impl Eprint) {
    let _ = rt.eprintln("an allocation failed");
}

#[test]
fn session_refused(rt: HostRuntime) -> Result<(), Fail> {
    let seen = match one_run(&rt, rt.alloc()) {
        Ok(seen) => seen,
        Err(NoMemory) => {
            tell_failure(&rt);
            one_run(&rt, rt.alloc())?
        }
    };
    let is_cut = seen.end.fault == Some(SessionFault::NoMemory);
    if !is_cut {
        assert!(rt; seen.end.fault == Some(SessionFault::Talk(TalkFault::OriginatorChanged)));
        assert!(rt; seen.end.asked == 2);
    }
    // A SignOn that was accepted is acknowledged by 8 octets behind the header; then till 1 is
    // left.
    let left = seen.noted.last == Some(Call::Left(TillNo::new(1).expect(&rt, "till 1")));
    assert!(rt; seen.end.signed_off == left, "left, and not told so");
    assert!(rt; left || seen.told.get(7) != Some(&8), "not left last");
    // The comparison wants memory, too.
    let told = match is_told(&rt, rt.alloc(), &seen, !is_cut) {
        Ok(told) => told,
        Err(NoMemory) => {
            tell_failure(&rt);
            is_told(&rt, rt.alloc(), &seen, !is_cut)?
        }
    };
    assert!(rt; told, "told otherwise");
    Ok(())
}

fn one_run<R: Wait + Abort>(rt: &R, alloc: Global) -> Result<Seen, NoMemory> {
    let config: SiteConfig = known_site_of(alloc, 1_000_000)?;
    let peer = Peer::of(octets(rt, alloc, TWO_TILLS)?);
    session(rt, alloc, &config, &[], peer)
}

/// Was one of these texts told, whole or a front of it?
fn is_told(rt: &impl Abort, alloc: Global, seen: &Seen, is_whole: bool) -> Result<bool, NoMemory> {
    for text in MAY_BE_TOLD {
        let text = octets(rt, alloc, text)?;
        let is_front = text.starts_with(seen.told.as_slice());
        if is_front && (!is_whole || text.len() == seen.told.len()) {
            return Ok(true);
        }
    }
    Ok(false)
}
