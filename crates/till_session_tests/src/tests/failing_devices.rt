//! Sessions whose reader or writer fails at each of its calls in turn.

use super::calls::{TWO_TILLS, TWO_TILLS_TOLD, octets};
use super::noting::Call;
use super::peers::Peer;
use super::sessions::{Seen, session};
use devices::{ReadFault, WriteFault};
use forecourt_engines::known_site_of;
use peer_talk::TalkFault;
use site_base::{NoMemory, TillNo};
use std::alloc::Global;
use std::process::Abort;
use std::test::Fail;
use till_session::SessionFault;

#[test]
fn each_call_fails(rt: HostRuntime) -> Result<(), Fail> {
    let alloc = rt.alloc();
    let config = known_site_of(alloc, 1_000_000)?;
    // The text of 36 octets takes eight reads of at most 5. A reply of 16 takes four writes of at
    // most 5, the one of 13 takes three.
    for (most, reads, writes) in [(usize::MAX, 1u64, 3u64), (5, 8, 11)] {
        for k in 1..20 {
            let mut peer = Peer::of(octets(&rt, alloc, TWO_TILLS)?).in_pieces(most);
            peer.read_fails = k;
            let seen = session(&rt, alloc, &config, &[], peer)?;
            cut_by_a_read(&rt, alloc, &seen, k, k <= reads)?;
            let mut peer = Peer::of(octets(&rt, alloc, TWO_TILLS)?).in_pieces(most);
            peer.write_fails = k;
            let seen = session(&rt, alloc, &config, &[], peer)?;
            let cut = if k <= writes {
                Some(cut_before(k, most))
            } else {
                None
            };
            cut_by_a_write(&rt, alloc, &seen, cut)?;
        }
    }
    Ok(())
}

/// The session whose kth read failed, where it has so many: of at most 5 octets each.
fn cut_by_a_read(
    rt: &impl Abort,
    alloc: Global,
    seen: &Seen,
    k: u64,
    is_met: bool,
) -> Result<(), NoMemory> {
    if !is_met {
        return whole(rt, alloc, seen);
    }
    assert!(rt; seen.end.fault == Some(SessionFault::Read(ReadFault::Failed)));
    // The SignOn ends in the third read, the Open in the fifth.
    let (asked, size) = match k {
        1..=3 => (0u64, 0usize),
        4..=5 => (1, 16),
        _ => (2, 32),
    };
    let told = octets(rt, alloc, TWO_TILLS_TOLD)?;
    assert!(rt;
        told.starts_with(seen.told.as_slice()),
        "no front of the text"
    );
    assert!(rt; seen.told.len() == size && seen.end.asked == asked);
    assert!(rt; seen.end.signed_off == (asked > 0));
    assert!(rt;
        (seen.noted.last == Some(leave_one(rt))) == (asked > 0),
        "not left last"
    );
    Ok(())
}

/// The requests asked and the octets told before the kth write, of at most so many octets: whole
/// replies, or pieces of at most 5 of 16, 16 and 13.
fn cut_before(k: u64, most: usize) -> (u64, usize) {
    let k = k as usize;
    match k {
        1 => (1, 0),
        2..=3 if most > 5 => (2, 16 * (k - 1)),
        2..=4 => (1, 5 * (k - 1)),
        5..=8 => (2, 16 + 5 * (k - 5)),
        9..=11 => (2, 32 + 5 * (k - 9)),
        _ => (2, 45),
    }
}

/// The session one of whose writes failed, if it has so many, behind so many requests and octets.
fn cut_by_a_write(
    rt: &impl Abort,
    alloc: Global,
    seen: &Seen,
    cut: Option<(u64, usize)>,
) -> Result<(), NoMemory> {
    let Some((asked, size)) = cut else {
        return whole(rt, alloc, seen);
    };
    assert!(rt; seen.end.fault == Some(SessionFault::Write(WriteFault::Failed)));
    let told = octets(rt, alloc, TWO_TILLS_TOLD)?;
    assert!(rt;
        told.starts_with(seen.told.as_slice()),
        "no front of the text"
    );
    assert!(rt; seen.told.len() == size && seen.end.asked == asked && seen.end.signed_off);
    assert!(rt; seen.noted.last == Some(leave_one(rt)), "not left last");
    Ok(())
}

/// No call failed: all was told, up to the message of till 2.
fn whole(rt: &impl Abort, alloc: Global, seen: &Seen) -> Result<(), NoMemory> {
    let changed = SessionFault::Talk(TalkFault::OriginatorChanged);
    assert!(rt; seen.end.fault == Some(changed) && seen.end.asked == 2 && seen.end.signed_off);
    assert!(rt;
        seen.told == octets(rt, alloc, TWO_TILLS_TOLD)?,
        "told otherwise"
    );
    assert!(rt; seen.noted.last == Some(leave_one(rt)), "not left last");
    Ok(())
}

/// Till 1 is left.
fn leave_one(rt: &impl Abort) -> Call {
    Call::Left(TillNo::new(1).expect(rt, "till 1"))
}

#[test]
fn the_reader_fails(rt: HostRuntime) -> Result<(), Fail> {
    let alloc = rt.alloc();
    let config = known_site_of(alloc, 1_000_000)?;
    let told = octets(&rt, alloc, TWO_TILLS_TOLD)?;
    let input = octets(&rt, alloc, TWO_TILLS)?;
    assert!(rt; input.len() == 36 && told.len() == 45);
    for k in 1..3u64 {
        // Both messages of till 1 alone, so that the end is read in a call of its own.
        let mut peer = Peer::of(Vec::from_slice(alloc, &input[..24])?);
        peer.read_fails = k;
        let seen = session(&rt, alloc, &config, &[], peer)?;
        assert!(rt; seen.end.fault == Some(SessionFault::Read(ReadFault::Failed)));
        assert!(rt;
            (seen.noted.last == Some(leave_one(&rt))) == (k == 2),
            "not left last"
        );
        let size = if k == 2 { 32 } else { 0 };
        assert!(rt; seen.told.as_slice() == &told[..size] && seen.end.signed_off == (k == 2));
    }
    Ok(())
}

#[test]
fn a_writer_takes_nothing(rt: HostRuntime) -> Result<(), Fail> {
    let alloc = rt.alloc();
    let config = known_site_of(alloc, 1_000_000)?;
    let mut peer = Peer::of(octets(&rt, alloc, TWO_TILLS)?);
    peer.write_most = 0;
    let seen = session(&rt, alloc, &config, &[], peer)?;
    assert!(rt; seen.end.fault == Some(SessionFault::Write(WriteFault::Failed)));
    assert!(rt; seen.told.is_empty() && seen.end.asked == 1 && seen.end.signed_off);
    assert!(rt; seen.noted.written == 0 && seen.settled.rows == 2);
    Ok(())
}

#[test]
fn turns_are_used_up(rt: HostRuntime) -> Result<(), Fail> {
    let alloc = rt.alloc();
    let config = known_site_of(alloc, 1_000_000)?;
    let input = octets(&rt, alloc, TWO_TILLS)?;
    assert!(rt; input.len() == 36);
    for (turns, asked) in [(0u64, 0usize), (1, 2)] {
        let mut peer = Peer::of(Vec::from_slice(alloc, &input[..24])?);
        peer.turns = turns;
        let seen = session(&rt, alloc, &config, &[], peer)?;
        let spent = SessionFault::Read(ReadFault::TurnLimit);
        assert!(rt; seen.end.fault == Some(spent) && spent.number() == 59);
        assert!(rt; seen.end.asked == asked as u64 && seen.noted.written == asked);
    }
    Ok(())
}

#[test]
fn writes_are_interrupted_without_end(rt: HostRuntime) -> Result<(), Fail> {
    let alloc = rt.alloc();
    let config = known_site_of(alloc, 1_000_000)?;
    let told = octets(&rt, alloc, TWO_TILLS_TOLD)?;
    // The first write that is interrupted, and the most that a call moves; how often was read, what
    // was told, how many requests were asked and how many replies written.
    let cases = [
        (1u64, usize::MAX, 1u64, 0usize, 1u64, 0usize),
        (2, usize::MAX, 1, 16, 2, 1),
        (3, usize::MAX, 1, 32, 2, 2),
        (2, 5, 3, 5, 1, 0),
        (11, 5, 8, 42, 2, 2),
    ];
    for (first, most, reads, size, asked, written) in cases {
        let mut peer = Peer::of(octets(&rt, alloc, TWO_TILLS)?).in_pieces(most);
        peer.interrupted_from = first;
        peer.interruptions = u64::MAX;
        peer.turns = 10;
        let seen = session(&rt, alloc, &config, &[], peer)?;
        let spent = SessionFault::Write(WriteFault::TurnLimit);
        assert!(rt; seen.end.fault == Some(spent) && spent.number() == 59);
        assert!(rt;
            told.starts_with(seen.told.as_slice()),
            "no front of the text"
        );
        assert!(rt; seen.told.len() == size && seen.end.asked == asked);
        assert!(rt; seen.noted.written == written && seen.end.signed_off);
        assert!(rt; seen.noted.last == Some(leave_one(&rt)), "not left last");
        // Each read takes a turn, and each interrupted write but the last, which finds none.
        assert!(rt; seen.calls.saturating_add(reads) == first.saturating_add(10));
    }
    Ok(())
}

#[test]
fn an_interrupted_write_is_made_again(rt: HostRuntime) -> Result<(), Fail> {
    let alloc = rt.alloc();
    let config = known_site_of(alloc, 1_000_000)?;
    // One read, nine interrupted writes, and no turn is left; three writes are made.
    for first in 1..4 {
        let mut peer = Peer::of(octets(&rt, alloc, TWO_TILLS)?);
        peer.interrupted_from = first;
        peer.interruptions = 9;
        peer.turns = 10;
        let seen = session(&rt, alloc, &config, &[], peer)?;
        whole(&rt, alloc, &seen)?;
        assert_eq!(rt; seen.calls, 12);
    }
    Ok(())
}
