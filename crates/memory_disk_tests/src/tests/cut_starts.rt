//! Starts that are cut at each call of their disk, each with another start after it.

use super::crash::{CRASHES, Crash, LOST, STOPPED, TORN};
use super::day::{BEGIN_CALLS, CLEAR_CALLS, Day, Remains};
use super::starts::{check_start, try_start};
use site_base::NoMemory;
use std::alloc::Global;
use std::process::Abort;
use std::test::Fail;

/// More calls than a day or a start has.
const MOST_CALLS: u64 = 100;

/// The day is cut at an append, at its flush, at the begin of the next chapter, or at no call.
const CALLS: [u64; 4] = [CLEAR_CALLS, CLEAR_CALLS + 1, BEGIN_CALLS, MOST_CALLS];

/// Cuts the day after this number of calls, and the start after it at each of its calls.
fn cut_starts(
    rt: &impl Abort,
    alloc: Global,
    day: &Day,
    calls: u64,
    crash: &Crash,
    second: &Crash,
) -> Result<(), NoMemory> {
    for start_calls in 0..MOST_CALLS {
        let remains = day.cut(rt, alloc, calls, crash)?;
        if !cut_start(rt, alloc, day, remains, start_calls, second)? {
            break;
        }
    }
    Ok(())
}

/// A start on what a day left is cut after this number of calls, and another one comes. Returns
/// whether the first one was cut.
fn cut_start(
    rt: &impl Abort,
    alloc: Global,
    day: &Day,
    remains: Remains,
    calls: u64,
    crash: &Crash,
) -> Result<bool, NoMemory> {
    let mut disk = remains.disk;
    disk.cut_at(crash.at(calls));
    let reached = try_start(rt, alloc, day, &mut disk, remains.reached)?;
    let is_cut = disk.is_cut();
    let mut left = crash.leave(disk);
    check_start(rt, alloc, day, &mut left, reached)?;
    Ok(is_cut)
}

#[test]
fn a_start_is_cut_at_each_call(rt: HostRuntime) -> Result<(), Fail> {
    let alloc = rt.alloc();
    let day = Day::read(&rt, alloc, 1, None)?;
    for calls in CALLS {
        for crash in [LOST, TORN, STOPPED] {
            for second in &CRASHES {
                cut_starts(&rt, alloc, &day, calls, &crash, second)?;
            }
        }
    }
    Ok(())
}
