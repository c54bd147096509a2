//! A station that continues where its journal ended.

ghost use Rattle.std.specs.Prelude.{◌≡◌, ◌≤◌, IfErr, IfOk, Some, false, string_bytes};
ghost use Rattle.station.specs.Gates.{open_gates};
ghost use Rattle.station.specs.Sessions.{without_till};
ghost use Rattle.station.specs.Runs.{opening_station};
ghost use Rattle.journal.specs.declared.memory.TheConstants.{LEAST_ROWS};
ghost use Rattle.journal.specs.Disks.{Keeps, OfFile, OfFiles, IsUntouched};
ghost use Rattle.journal.specs.Faults.{IsOfText, IsRefusal, NamesIn};
ghost use Rattle.std.specs.List.{AllByRecursion};
ghost use Rattle.kept_history.specs.KeptRows.{kept_rows};
ghost use Rattle.site_book.specs.Unpaid.{GoesBy};
ghost use Rattle.chapters.specs.History.{IsHistory};
ghost use Rattle.chapters.specs.RowText.{CanBeSpelled, IsSent};
ghost use Rattle.journal.specs.Opening.{HasNobodyOn, Reopens, Resumes, all_off};
ghost use Rattle.journal.specs.Recovering.{KeepsWholeLines, TellsNothingIn};
ghost use Rattle.journal.specs.Stored.{HoldsRows};

use crate::disk::Disk;
use crate::journal::Journal;
use crate::recovery::{OpenFault, recover, unwritten};
use crate::stored_station::StoredStation;
use chapters::ReadHistory;
use site_base::{SiteConfig, TILLS, TillNo};
use site_book::SiteBook;
use stamps::Stamp;
use std::alloc::Global;

/// A station that continues where its journal ended.
#[derive(Drop)]
pub struct Opened<D: Disk> {
    /// The station.
    pub station: StoredStation<D>,
    /// The number of rows that the journal had.
    pub rows: u64,
}

/// A journal that couldn't be opened.
#[derive(Drop)]
pub struct Unopened<D: Disk> {
    /// Why.
    pub fault: OpenFault,
    /// The disk that holds it.
    pub disk: D,
}

/// Opens the station of the history of the site of this name, whatever a crash has left of it.
/// Restores its rows, and signs off each till that was signed on, at this time, because its session
/// is gone. If nothing is written yet, there are no rows.
///
/// `Unread` means that a chapter can't be read, and `Refused` that one is wrong, or doesn't
/// continue the one before it. Both leave the chapters as they are. `Unwritten` means that the disk
/// takes no more.
pub fn open_journal<D: Disk>(
    alloc: Global,
    config: &SiteConfig,
    site: String,
    disk: D,
    clock: Option<Stamp>,
) -> Result<Opened<D>, Unopened<D>>
    requires { LEAST_ROWS ≤ config.now.rows }
    ensures alone { IfOk result
        (λ o. o.station.station ≡ opening_station open_gates o.station.station.book) }
    ensures off { IfOk result (λ o. HasNobodyOn o.station.station.book) }
    ensures opened { IfOk result (λ o.
        Reopens (string_bytes site) config.now clock (D.file disk) o.rows o.station) }

    // Refused chapters tell no book of this site, and the fault names what is wrong. Nothing is
    // done to them, nor to those that can't be read.
    ensures refused { IfErr result (λ u. IsOfText u.fault → OfFile
        (TellsNothingIn (string_bytes site)) (D.file disk)) }
    ensures named { IfErr result (λ u. IsOfText u.fault → OfFile
        (NamesIn (string_bytes site) u.fault) (D.file disk)) }
    ensures stays { IfErr result (λ u. IsRefusal u.fault → OfFiles
        IsUntouched (D.file disk) (D.file u.disk)) }

    // Whatever the fault, closed chapters stay, and whole lines that were on the disk, at each
    // moment.
    ensures moments { IfErr result (λ u. OfFiles KeepsWholeLines (D.file disk) (D.file u.disk)) }
{
    let mut disk = disk;
    let recovered = match recover(alloc, config, site, &mut disk) {
        Ok(recovered) => recovered,
        Err(fault) => return Err(Unopened { fault, disk }),
    };
    let rows = recovered.book.len();
    match resume(alloc, recovered, disk, clock) {
        Ok(station) => Ok(Opened { station, rows }),
        Err(unopened) => Err(unopened),
    }
}

/// Returns the station of what was recovered from this disk. Signs off each till that is signed on,
/// and stores that at this time. The faults are `NoMemory` and `Unwritten`.
pub fn resume<D: Disk>(
    alloc: Global,
    recovered: ReadHistory,
    disk: D,
    clock: Option<Stamp>,
) -> Result<StoredStation<D>, Unopened<D>>
    requires sent { AllByRecursion IsSent recovered.book.rows }
    requires kept { kept_rows recovered.book.rows ≡ recovered.book.rows }
    requires spelled { CanBeSpelled recovered.book.rows }
    requires unpaid { GoesBy recovered.unpaid recovered.book }
    requires enough { LEAST_ROWS ≤ recovered.book.config.rows }
    requires settled { OfFile (HoldsRows (string_bytes recovered.site) recovered.book.rows false
        recovered.end) (D.file disk) }
    ensures resumed { IfOk result
        (λ s. Resumes (string_bytes recovered.site) recovered.book recovered.end.time clock
        (D.file disk) s) }
    ensures fault { IfErr result (λ u. IsRefusal u.fault → ⊥) }
    ensures moments { IfErr result (λ u. OfFiles Keeps (D.file disk) (D.file u.disk)) }
{
    let mut book = recovered.book;
    let rows = book.len();
    sign_off_all(&mut book);
    let mut journal = Journal::new(
        alloc,
        disk,
        recovered.site,
        recovered.end,
        recovered.begin,
        rows,
        clock,
    );
    match journal.store(&book) {
        Ok(()) => Ok(StoredStation::with_journal(alloc, book, recovered.unpaid, journal)),
        Err(fault) => Err(Unopened {
            fault: unwritten(fault),
            disk: journal.into_disk(),
        }),
    }
}

/// Signs off each till that is signed on.
fn sign_off_all(book: &mut SiteBook)
    ensures rows { book.new ≡ all_off book.old }
    ensures legal { IsHistory book.new }
    ensures off { HasNobodyOn book.new }
{
    for number in 1..TILLS + 1 {
        let Some(till) = TillNo::new(number) else {
            unreachable!();
        };
        leave(book, till);
    }
    // The rows' tills are in range.
    let _ = book.len();
}

/// Signs off a till, if it is signed on.
fn leave(book: &mut SiteBook, till: TillNo)
    ensures { book.new ≡ without_till (Some till) book.old }
{
    let _ = book.sign_off(till);
}
