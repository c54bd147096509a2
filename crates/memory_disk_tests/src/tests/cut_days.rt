//! Days that are cut at each call of their disk.

use super::crash::{CRASHES, Crash};
use super::day::{BEGIN_CALLS, CLEAR_CALLS, CLOSE_CALLS, Day, Reached};
use super::expected::rows_left;
use super::starts::check_start;
use journal::Disk;
use site_base::NoMemory;
use std::alloc::Global;
use std::process::Abort;
use std::test::Fail;
use std::time::Instant;

/// More calls than any day has.
const MOST_CALLS: u64 = 100;

/// The kept rows of the day.
const ROWS: u64 = 14;

/// The calls of the day: a read and a renewal by the start, an append and a flush for each kept
/// row, and one call that begins the next chapter.
const SEALED_CALLS: u64 = 2 + 2 * ROWS + 1;

/// The calls if there are four rounds of up to four messages.
const ROUND_CALLS: u64 = 2 + 2 * 4 + 1;

/// The calls if only the first round has a seal: another is appended and flushed before the next
/// chapter begins.
const UNSEALED_CALLS: u64 = SEALED_CALLS + 2;

/// More octets than an append has: a time has 30, three rows have 127, and a seal has 72.
const MOST_OCTETS: usize = 240;

/// The octets of the line of a time.
const TIME_OCTETS: usize = 30;

/// Cuts the day at each of its calls in turn, and starts on what is left. Returns the number of
/// calls.
fn cut_each(rt: &impl Abort, alloc: Global, day: &Day, crash: &Crash) -> Result<u64, NoMemory> {
    for calls in 0..MOST_CALLS {
        let remains = day.cut(rt, alloc, calls, crash)?;
        let reached = remains.reached;
        if !remains.is_cut {
            assert!(rt; reached.sent == ROWS, "the day isn't whole");
            return Ok(calls);
        }
        let mut disk = remains.disk;
        check_start(rt, alloc, day, &mut disk, crash.find(reached))?;
    }
    Ok(MOST_CALLS)
}

#[test]
fn a_day_is_cut_at_each_call(rt: HostRuntime) -> Result<(), Fail> {
    let alloc = rt.alloc();
    let day = Day::read(&rt, alloc, 1, None)?;
    for crash in &CRASHES {
        assert_eq!(rt; cut_each(&rt, alloc, &day, crash)?, SEALED_CALLS);
    }
    Ok(())
}

#[test]
fn a_day_without_seals_is_cut_at_each_call(rt: HostRuntime) -> Result<(), Fail> {
    let alloc = rt.alloc();
    let day = Day::read(&rt, alloc, 1, Some(Instant::now(&rt)?))?;
    for crash in &CRASHES {
        assert_eq!(rt; cut_each(&rt, alloc, &day, crash)?, UNSEALED_CALLS);
    }
    Ok(())
}

/// Cuts the append after this number of calls at each of its octets. A start finds the rows whose
/// lines are whole; above them is the line of a time, if the rounds have one.
fn cut_octets(rt: &impl Abort, alloc: Global, day: &Day, calls: u64) -> Result<(), NoMemory> {
    let before = if day.begin.is_some() { TIME_OCTETS } else { 0 };
    for octets in 0..MOST_OCTETS {
        let crash = Crash {
            octets,
            is_done: false,
            kept: Some(usize::MAX),
        };
        let remains = day.cut(rt, alloc, calls, &crash)?;
        assert!(rt; remains.is_cut, "not cut");
        let left = octets.saturating_sub(before);
        let rows = rows_left(&day.messages, remains.reached, left);
        let reached = Reached {
            sent: rows,
            heard: rows,
        };
        let mut disk = remains.disk;
        check_start(rt, alloc, day, &mut disk, reached)?;
    }
    Ok(())
}

#[test]
fn an_append_is_cut_at_each_octet(rt: HostRuntime) -> Result<(), Fail> {
    let alloc = rt.alloc();
    let day = Day::read(&rt, alloc, 1, Some(Instant::now(&rt)?))?;
    cut_octets(&rt, alloc, &day, CLEAR_CALLS)?;
    let day = Day::read(&rt, alloc, 1, None)?;
    cut_octets(&rt, alloc, &day, CLOSE_CALLS)?;
    Ok(())
}

/// The second round has a release, a lift, a read and a sale.
#[test]
fn a_round_of_several_rows_is_cut(rt: HostRuntime) -> Result<(), Fail> {
    let alloc = rt.alloc();
    let day = Day::read(&rt, alloc, 4, None)?;
    for crash in &CRASHES {
        assert_eq!(rt; cut_each(&rt, alloc, &day, crash)?, ROUND_CALLS);
    }
    cut_octets(&rt, alloc, &day, 2 + 2)?;
    Ok(())
}

#[test]
fn the_end_of_a_chapter_is_cut(rt: HostRuntime) -> Result<(), Fail> {
    let alloc = rt.alloc();
    let day = Day::read(&rt, alloc, 1, None)?;
    for is_done in [false, true] {
        let crash = Crash {
            octets: 0,
            is_done,
            kept: Some(0),
        };
        let remains = day.cut(&rt, alloc, BEGIN_CALLS, &crash)?;
        let reached = remains.reached;
        let mut disk = remains.disk;
        assert_eq!(rt; reached.sent, 11);
        assert_eq!(rt; disk.closed(), u64::from(is_done));
        check_start(&rt, alloc, &day, &mut disk, reached)?;
    }
    Ok(())
}
