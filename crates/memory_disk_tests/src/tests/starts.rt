//! Starts on a disk, and what each has to find.

use super::day::{Day, Reached, time_of};
use super::expected::{expected_rows, has_rows};
use journal::{LEAST_ROWS, OpenFault, Opened, open_journal};
use memory_disk::{LentDisk, MemoryDisk};
use site_base::{NoMemory, SiteConfig};
use site_book::SiteBook;
use std::alloc::Global;
use std::process::Abort;

/// A start on this disk. None if the disk fails: a start is never refused.
pub fn start<'a>(
    rt: &impl Abort,
    alloc: Global,
    config: &SiteConfig,
    disk: &'a mut MemoryDisk,
) -> Result<Option<Opened<LentDisk<'a>>>, NoMemory> {
    assert!(rt; config.rows() as usize >= LEAST_ROWS, "too few rows");
    let site = String::from_str(alloc, "five points")?;
    let clock = time_of(alloc, 0)?;
    match open_journal(alloc, config, site, LentDisk::new(disk), clock) {
        Ok(opened) => Ok(Some(opened)),
        Err(unopened) => {
            let fault = unopened.fault;
            assert!(rt; !matches!(fault, OpenFault::Refused(_)), "refused");
            Ok(None)
        }
    }
}

/// A start on the disk of a day that came this far. It finds each row that was sent, and no row
/// that wasn't heard.
pub fn check_start(
    rt: &impl Abort,
    alloc: Global,
    day: &Day,
    disk: &mut MemoryDisk,
    reached: Reached,
) -> Result<(), NoMemory> {
    let mut is_found = false;
    if let Some(opened) = start(rt, alloc, &day.config, disk)? {
        let station = opened.station;
        assert!(rt; opened.rows >= reached.sent, "a row was sent, and is lost");
        is_found = is_expected(alloc, day, station.book(), reached)?;
    }
    assert!(rt; is_found, "other rows than those that were sent and heard");
    Ok(())
}

/// A start on the disk of a day that came this far, which may fail. If it succeeds, each row that
/// it read counts as sent.
pub fn try_start(
    rt: &impl Abort,
    alloc: Global,
    day: &Day,
    disk: &mut MemoryDisk,
    reached: Reached,
) -> Result<Reached, NoMemory> {
    let mut found = reached;
    if let Some(opened) = start(rt, alloc, &day.config, disk)? {
        let _station = opened.station;
        found = Reached {
            sent: opened.rows,
            heard: opened.rows,
        };
    }
    Ok(found)
}

/// Does the book have the kept rows of the day up to one between those that were sent and those
/// that were heard, and then the sign-offs?
fn is_expected(
    alloc: Global,
    day: &Day,
    book: &SiteBook,
    reached: Reached,
) -> Result<bool, NoMemory> {
    for kept in reached.sent..=reached.heard {
        let rows = expected_rows(alloc, &day.messages, kept)?;
        if has_rows(alloc, book, &rows)? {
            return Ok(true);
        }
    }
    Ok(false)
}
