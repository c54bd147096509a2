//! Sessions whose devices don't fail: other originators, faults, noise, floods and cuts.

ghost use Rattle.std.specs.Prelude.{◌≤◌};

use super::calls::{THREE_REQUESTS, THREE_TOLD, TWO_TILLS, TWO_TILLS_TOLD, octets, one_sale};
use super::noting::Call;
use super::peers::Peer;
use super::sessions::session;
use app_message::GrammarFault;
use forecourt_engines::known_site_of;
use peer_talk::TalkFault;
use site_base::TillNo;
use std::test::Fail;
use till_session::SessionFault;

#[test]
fn another_originator(rt: HostRuntime) -> Result<(), Fail> {
    let alloc = rt.alloc();
    let config = known_site_of(alloc, 1_000_000)?;
    let peer = Peer::of(octets(&rt, alloc, TWO_TILLS)?);
    let seen = session(&rt, alloc, &config, &[], peer)?;
    assert!(rt;
        seen.told == octets(&rt, alloc, TWO_TILLS_TOLD)?,
        "told otherwise"
    );
    let changed = SessionFault::Talk(TalkFault::OriginatorChanged);
    assert!(rt; seen.end.fault == Some(changed) && changed.number() == 57);
    assert!(rt; seen.end.asked == 2 && seen.end.signed_off && seen.noted.written == 2);
    assert!(rt;
        seen.noted.last == Some(Call::Left(TillNo::new(1).expect(&rt, "till 1"))),
        "not left last"
    );
    assert!(rt; seen.settled.rows == 3 && seen.settled.shares == 1);
    Ok(())
}

#[test]
fn faults(rt: HostRuntime) -> Result<(), Fail> {
    let alloc = rt.alloc();
    let config = known_site_of(alloc, 1_000_000)?;
    let cases = [
        (
            "01 01 02 01 00 A3 00 02 01 23",
            "02 01 01 01 00 E3 00 05 01 01 01 01 29",
            GrammarFault::BadKind,
        ),
        (
            "01 01 02 01 00 43 04 01",
            "02 01 01 01 00 E3 00 05 01 01 01 01 2A",
            GrammarFault::BadLength,
        ),
        (
            "01 01 02 01 00 43 00 06 01 23 3E 00 3C 00",
            "02 01 01 01 00 E3 00 05 01 01 01 01 2B",
            GrammarFault::BadItem,
        ),
    ];
    for (input, told, fault) in cases {
        let peer = Peer::of(octets(&rt, alloc, input)?);
        let seen = session(&rt, alloc, &config, &[], peer)?;
        assert!(rt; seen.told == octets(&rt, alloc, told)?, "told otherwise");
        assert!(rt; seen.end.fault == Some(SessionFault::Talk(TalkFault::Stream(fault))));
        assert!(rt; seen.end.asked == 0 && !seen.end.signed_off && seen.noted.last.is_none());
    }
    Ok(())
}

#[test]
fn noise(rt: HostRuntime) -> Result<(), Fail> {
    let alloc = rt.alloc();
    let config = known_site_of(alloc, 1_000_000)?;
    let peer = Peer::of(vec![in alloc; 0xFFu8; 65_536]?);
    let seen = session(&rt, alloc, &config, &[], peer)?;
    let told = octets(&rt, alloc, "FF FF 01 01 00 FF 00 05 01 01 01 01 28")?;
    assert!(rt; seen.told == told, "told otherwise");
    let fault = SessionFault::Talk(TalkFault::Stream(GrammarFault::BadCode));
    assert!(rt; seen.end.fault == Some(fault) && fault.number() == 40);
    assert!(rt; seen.end.asked == 0 && !seen.end.signed_off && seen.settled.rows == 0);
    Ok(())
}

#[test]
fn flood(rt: HostRuntime) -> Result<(), Fail> {
    let alloc = rt.alloc();
    let config = known_site_of(alloc, 1_000_000)?;
    let clear = octets(&rt, alloc, "01 01 02 01 00 44 00 07 04 21 21 00 01 82 00")?;
    let cleared = octets(
        &rt,
        alloc,
        "02 01 01 01 00 E4 00 12 04 21 21 00 01 01 01 16 02 08 00 00 00 00 00 00 00 01",
    )?;
    let mut input = Vec::new(alloc);
    let mut told = Vec::new(alloc);
    for _ in 0..10_000u32 {
        input.extend_from_slice(&clear)?;
        told.extend_from_slice(&cleared)?;
    }
    let calls = one_sale(&rt, alloc)?;
    let seen = session(&rt, alloc, &config, &calls, Peer::of(input))?;
    assert!(rt; seen.told == told, "told otherwise");
    assert!(rt; seen.end.fault.is_none() && seen.end.asked == 10_000 && !seen.end.signed_off);
    let tills = seen.settled.book.tills.as_slice();
    assert!(rt; seen.settled.cents == 1_500 && tills.len() == 32);
    assert!(rt; tills[0].1 == 1 && tills[0].2 == 1_500);
    // Ten calls, ten thousand requests, and the sign-offs of both tills.
    assert_eq!(rt; seen.settled.rows, 10_012);
    Ok(())
}

#[test]
fn cut(rt: HostRuntime) -> Result<(), Fail> {
    let alloc = rt.alloc();
    let config = known_site_of(alloc, 1_000_000)?;
    let input = octets(&rt, alloc, THREE_REQUESTS)?;
    let told = octets(&rt, alloc, THREE_TOLD)?;
    assert!(rt; input.len() == 34 && told.len() == 70);
    for length in 0..35usize {
        let peer = Peer::of(Vec::from_slice(alloc, &input[..length])?);
        let seen = session(&rt, alloc, &config, &[], peer)?;
        let (asked, size) = whole(length);
        assert!(rt; seen.told.as_slice() == &told[..size], "told otherwise");
        let is_whole = length == 0 || length == 12 || length == 24 || length == 34;
        let fault = if is_whole {
            None
        } else {
            Some(SessionFault::Talk(TalkFault::Truncated))
        };
        assert!(rt; seen.end.fault == fault && seen.end.asked == asked);
        assert!(rt; seen.end.signed_off == (length >= 12));
    }
    Ok(())
}

/// How many of the three messages are whole in so many octets, and the octets of their replies.
fn whole(length: usize) -> (u64, usize)
    ensures { result.1 ≤ 70 }
{
    if length < 12 {
        (0, 0)
    } else if length < 24 {
        (1, 16)
    } else if length < 34 {
        (2, 32)
    } else {
        (3, 70)
    }
}
