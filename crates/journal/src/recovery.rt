//! The book of a history that a crash may have left.

ghost use Rattle.std.specs.Prelude.{◌≡◌, ◌<◌, [], IfErr, IfOk, OnOk, false, string_bytes};
ghost use Rattle.std.specs.List.{AllByRecursion};
ghost use Rattle.kept_history.specs.KeptRows.{kept_rows};
ghost use Rattle.site_book.specs.Unpaid.{GoesBy};
ghost use Rattle.chapters.specs.Readers.{HasRead, IsOfText as IsOfLines};
ghost use Rattle.chapters.specs.RowText.{CanBeSpelled, IsSent};
ghost use Rattle.chapters.specs.declared.history_end.TheConstants.{MOST_CHAPTERS};
ghost use Rattle.journal.specs.Disks.{IsUntouched, OfFile, OfFiles};
ghost use Rattle.journal.specs.Faults.{IsOfText, IsRefusal, NamesIn};
ghost use Rattle.journal.specs.Recovering.{HasReadClosed, IsReadIn, KeepsWholeLines, StandsFor};
ghost use Rattle.journal.specs.Recovering.{TellsNothingIn};
ghost use Rattle.journal.specs.Stored.{HoldsRows};

use crate::disk::{Disk, DiskFault};
use chapters::{HistoryFault, HistoryReader, ReadHistory};
use site_base::{NoMemory, SiteConfig};
use std::alloc::Global;

/// Why a history isn't opened.
#[derive(Clone, Copy, Debug, PartialEq, Eq)]
pub enum OpenFault {
    /// An allocation failed.
    NoMemory,
    /// Its octets can't be read.
    Unread,
    /// A chapter isn't one of this site's history: a first line, a row's line or a seal is wrong,
    /// or it doesn't continue the chapter before it.
    Refused(HistoryFault),
    /// The disk takes no more.
    Unwritten,
}

impl From<NoMemory> for OpenFault {
    ghost use Rattle.std.specs.Prelude.{◌≡◌};
    ghost use Rattle.journal.specs.declared.recovery.OpenFault.{OpenFault};

    ghost from_gives = { λ _ e. e ≡ OpenFault.NoMemory };

    fn from(_e: NoMemory) -> OpenFault {
        OpenFault::NoMemory
    }
}

/// Recovers the history of the site of this name from a disk, whatever a crash has left there. What
/// was read is written anew in place of the open chapter, because after a failed flush the disk may
/// not have what a read returns. A torn last line is left out: nobody was sent anything of it. A
/// history that hasn't begun gets the first lines of its first chapter.
///
/// `Unread` means that a chapter can't be read, and `Refused` that one is wrong, or doesn't
/// continue the one before it. Both leave the chapters as they are. `Unwritten` means that the disk
/// takes no more.
pub fn recover<D: Disk>(
    alloc: Global,
    config: &SiteConfig,
    site: String,
    disk: &mut D,
) -> Result<ReadHistory, OpenFault>
    ensures site { IfOk result (λ r. string_bytes r.site ≡ string_bytes site) }
    ensures config { IfOk result (λ r. r.book.config ≡ config.now) }
    ensures sent { IfOk result (λ r. AllByRecursion IsSent r.book.rows) }
    ensures kept { IfOk result (λ r. kept_rows r.book.rows ≡ r.book.rows) }
    ensures spelled { IfOk result (λ r. CanBeSpelled r.book.rows) }
    ensures unpaid { IfOk result (λ r. GoesBy r.unpaid r.book) }

    // The book is what the chapters tell, and the disk's tell it.
    ensures read { IfOk result (λ r.
        OfFile (IsReadIn (string_bytes site) r.book) (D.file disk.old)) }
    ensures settled { IfOk result (λ r. OfFile
        (HoldsRows (string_bytes site) r.book.rows false r.end) (D.file disk.new)) }

    // Refused chapters tell no book of this site, and the fault names what is wrong. Nothing is
    // done to them, nor to those that can't be read.
    ensures refused { IfErr result (λ fault. IsOfText fault → OfFile
        (TellsNothingIn (string_bytes site)) (D.file disk.old)) }
    ensures named { IfErr result (λ fault. IsOfText fault → OfFile
        (NamesIn (string_bytes site) fault) (D.file disk.old)) }
    ensures stays { IfErr result (λ fault. IsRefusal fault → OfFiles
        IsUntouched (D.file disk.old) (D.file disk.new)) }

    // A crash at any moment leaves the closed chapters, and the whole lines of the open one that
    // were on the disk.
    ensures moments { OfFiles KeepsWholeLines (D.file disk.old) (D.file disk.new) }
{
    let mut reader = HistoryReader::open(alloc, config, site)?;
    match read_closed(alloc, &mut reader, disk) {
        Ok(()) => {}
        Err(fault) => return Err(fault),
    }
    let octets = match read_open(alloc, &reader, disk) {
        Ok(octets) => octets,
        Err(fault) => return Err(fault),
    };
    let whole = match reader.read_chapter(&octets) {
        Ok(whole) => whole,
        Err(fault) => return Err(refused(fault)),
    };
    match disk.renew(&octets[..whole]) {
        Ok(()) => Ok(reader.into_read()),
        Err(fault) => Err(unwritten(fault)),
    }
}

/// Reads the closed chapters, one after another.
fn read_closed<D: Disk>(
    alloc: Global,
    reader: &mut HistoryReader,
    disk: &mut D,
) -> Result<(), OpenFault>
    requires { HasRead [] reader.old }
    ensures read { OnOk result (HasReadClosed (D.file disk.old) reader.new) }
    ensures site { reader.new.site ≡ reader.old.site }
    ensures config { reader.new.book.config ≡ reader.old.book.config }
    ensures most { OnOk result (reader.new.end.chapters < MOST_CHAPTERS) }
    ensures refused { IfErr result (λ fault. IsOfText fault → OfFile
        (TellsNothingIn reader.old.site) (D.file disk.old)) }
    ensures named { IfErr result (λ fault. IsOfText fault → OfFile
        (NamesIn reader.old.site fault) (D.file disk.old)) }
    ensures stays { D.file disk.new ≡ D.file disk.old }
{
    let count = disk.closed();
    for place in 0..count {
        let text = match disk.read_closed(alloc, place) {
            Ok(text) => text,
            Err(fault) => return Err(unread(fault)),
        };
        match reader.read_chapter(&text) {
            Ok(_) => {}
            Err(fault) => return Err(refused(fault)),
        }
    }
    Ok(())
}

/// The octets of the open chapter; where nothing is written yet, the first lines that it will have.
fn read_open<D: Disk>(
    alloc: Global,
    reader: &HistoryReader,
    disk: &mut D,
) -> Result<Vec<u8>, OpenFault>
    ensures octets { IfOk result (λ v. OfFile (StandsFor reader.now v.items) (D.file disk.old)) }
    ensures fault { IfErr result (λ fault. IsOfText fault → ⊥) }
    ensures stays { OfFiles IsUntouched (D.file disk.old) (D.file disk.new) }
{
    let octets = match disk.read(alloc) {
        Ok(octets) => octets,
        Err(fault) => return Err(unread(fault)),
    };
    if !octets.is_empty() || reader.chapters() > 0 {
        return Ok(octets);
    }
    let lines = reader.next_lines()?;
    Ok(octets_of(alloc, lines.as_str())?)
}

/// The octets of a text.
fn octets_of(alloc: Global, text: &str) -> Result<Vec<u8>, NoMemory>
    ensures { IfOk result (λ v. v.items ≡ text.now) }
{
    Ok(Vec::from_slice(alloc, text.as_bytes())?)
}

/// The fault of chapters that are refused.
fn refused(fault: HistoryFault) -> OpenFault
    ensures same { IsOfText result → result ≡ OpenFault.Refused fault }
    ensures text { IsOfText result → IsOfLines fault }
{
    match fault {
        HistoryFault::NoMemory => OpenFault::NoMemory,
        HistoryFault::Line(_, _) | HistoryFault::NotAfter(_, _) => OpenFault::Refused(fault),
    }
}

/// The fault of a chapter that can't be read.
fn unread(fault: DiskFault) -> OpenFault
    ensures { IsOfText result → ⊥ }
{
    match fault {
        DiskFault::NoMemory => OpenFault::NoMemory,
        DiskFault::Failed => OpenFault::Unread,
    }
}

/// The fault of a disk that takes no more.
pub(crate) fn unwritten(fault: DiskFault) -> OpenFault
    ensures refusal { IsRefusal result → ⊥ }
    ensures text { IsOfText result → ⊥ }
{
    match fault {
        DiskFault::NoMemory => OpenFault::NoMemory,
        DiskFault::Failed => OpenFault::Unwritten,
    }
}
