//! Opens the station of a command, with or without a history.

ghost use Rattle.std.specs.Prelude.{◌≡◌, ◌≤◌, ℕ, IfErr, IfNone, IfOk, IfSome, List, None, Option};
ghost use Rattle.std.specs.Prelude.{string_bytes};
ghost use Rattle.station.specs.Gates.{open_gates};
ghost use Rattle.station.specs.Runs.{opening_station};
ghost use Rattle.journal.specs.declared.memory.TheConstants.{LEAST_ROWS};
ghost use Rattle.chapters.specs.ChapterText.{site_name};
ghost use Rattle.chapters.specs.History.{empty_book};
ghost use Rattle.history_folder.specs.Names.{path_in};
ghost use Rattle.journal.specs.Opening.{HasNobodyOn, Reopens};
ghost use Rattle.program_io.specs.Statuses.{IsFailed};
ghost use Rattle.station_command.specs.Histories.{GoesOn, IsFound};

use crate::found::FoundHistory;
use crate::station_site::{history_site, read_station_site};
use chapters::site_name;
use history_files::{FileFault, HistoryDisk, HistoryFolder};
use history_folder::{FolderFault, exit_folder, exit_history, path_in};
use journal::{OpenFault, Opened, StoredStation, open_journal};
use program_io::{COMMAND_LINE, FAULT, exit_no_memory, exit_unread, exit_unstored, exit_with};
use site_base::SiteConfig;
use stamps::StampClock;
use std::fs::File;
use std::io::{Error, ErrorKind};
use std::process::ExitCode;
use std::rt::{Clock, Files};

/// What to do if the name of a history's folder is something else's, or nobody's.
const NAME_A_FOLDER: &str = "name a folder, or a place where one can be made";

/// Opens the station with the history in this folder, or one without a history on the site of this
/// file. Returns what was found of the history too. On an error, prints it and returns the exit
/// status.
pub fn open_station<'a, R: Files<File = File> + Clock + Eprint + AllocGlobal>(
    rt: &'a R,
    site: Option<&str>,
    history: Option<&str>,
) -> Result<(Opened<HistoryDisk<'a, R>>, FoundHistory), ExitCode>
    ensures alone { IfOk result
        (λ o. o.0.station.station ≡ opening_station open_gates o.0.station.station.book) }
    ensures off { IfOk result (λ o. HasNobodyOn o.0.station.station.book) }
    ensures kept { IfSome history.entry (λ _. IfOk result
        (λ o. GoesOn o.0.rows o.0.station)) }
    ensures unkept { IfNone history.entry (IfOk result (λ o. o.0.station.journal ≡ None)) }
    ensures found { IfOk result (λ o. IsFound o.1 o.0.station.journal) }
{
    match (history, site) {
        (Some(folder), site) => open_kept(rt, folder, site),
        (None, Some(site)) => open_unkept(rt, site),
        (None, None) => Err(exit_with(
            eprintln!(rt; "error: a station needs a site file or --history FOLDER"),
            COMMAND_LINE,
        )),
    }
}

/// A station without a history, on the site of the file of this name, or how the program ends.
fn open_unkept<'a, R: Files<File = File> + Eprint + AllocGlobal>(
    rt: &'a R,
    site: &str,
) -> Result<(Opened<HistoryDisk<'a, R>>, FoundHistory), ExitCode>
    ensures alone { IfOk result
        (λ o. o.0.station.station ≡ opening_station open_gates o.0.station.station.book) }
    ensures off { IfOk result (λ o. HasNobodyOn o.0.station.station.book) }
    ensures journal { IfOk result (λ o. o.0.station.journal ≡ None) }
    ensures found { IfOk result (λ o. IsFound o.1 o.0.station.journal) }
    ensures failed { IfErr result IsFailed }
{
    let (config, _) = read_station_site(rt, site)?;
    Ok((open_without(rt, &config)?, FoundHistory::NoFolder))
}

/// The station of this site without a history.
fn open_without<'a, R: Files<File = File> + Eprint + AllocGlobal>(
    rt: &'a R,
    config: &SiteConfig,
) -> Result<Opened<HistoryDisk<'a, R>>, ExitCode>
    requires { LEAST_ROWS ≤ config.now.rows }
    ensures alone { IfOk result
        (λ o. o.station.station ≡ opening_station open_gates o.station.station.book) }
    ensures off { IfOk result (λ o. HasNobodyOn o.station.station.book) }
    ensures journal { IfOk result (λ o. o.station.journal ≡ None) }
    ensures without { IfOk result (λ o. (o.rows ≡ 0)
        × (o.station.station.book ≡ empty_book config.now)) }
    ensures failed { IfErr result IsFailed }
{
    match StoredStation::open_without(rt.alloc(), config) {
        Ok(station) => Ok(Opened { station, rows: 0 }),
        Err(_) => Err(exit_no_memory(rt)),
    }
}

/// The station of the history in the folder of this name, and what was found there, or how the
/// program ends. The first start needs the site file of this name; later ones compare it.
fn open_kept<'a, R: Files<File = File> + Clock + Eprint + AllocGlobal>(
    rt: &'a R,
    name: &str,
    site: Option<&str>,
) -> Result<(Opened<HistoryDisk<'a, R>>, FoundHistory), ExitCode>
    ensures alone { IfOk result
        (λ o. o.0.station.station ≡ opening_station open_gates o.0.station.station.book) }
    ensures off { IfOk result (λ o. HasNobodyOn o.0.station.station.book) }
    ensures goes_on { IfOk result (λ o. GoesOn o.0.rows o.0.station) }
    ensures found { IfOk result (λ o. IsFound o.1 o.0.station.journal) }
    ensures failed { IfErr result IsFailed }
{
    let folder = match HistoryFolder::lock(rt, name) {
        Ok(folder) => folder,
        Err(fault) => return Err(exit_file(rt, name, fault)),
    };
    let (config, site_file) = history_site(rt, &folder, name, site)?;
    let chapters = folder.chapters();
    let opened = open_with(rt, &config, &site_file, folder, name)?;
    let found = if chapters == 0 {
        FoundHistory::New
    } else {
        FoundHistory::Chapters(chapters, opened.rows)
    };
    Ok((opened, found))
}

/// The station of this site with the history in this folder, which has this name.
fn open_with<'a, R: Files<File = File> + Clock + Eprint + AllocGlobal>(
    rt: &'a R,
    config: &SiteConfig,
    site_file: &[u8],
    folder: HistoryFolder<'a, R>,
    name: &str,
) -> Result<Opened<HistoryDisk<'a, R>>, ExitCode>
    requires { LEAST_ROWS ≤ config.now.rows }
    ensures alone { IfOk result
        (λ o. o.station.station ≡ opening_station open_gates o.station.station.book) }
    ensures off { IfOk result (λ o. HasNobodyOn o.station.station.book) }
    ensures opened { IfOk result (λ o.
        (clock : Option (List ℕ))
        × Reopens (site_name site_file.now) config.now clock None o.rows o.station) }
    ensures failed { IfErr result IsFailed }
{
    let disk = match folder.into_disk() {
        Ok(disk) => disk,
        Err(fault) => return Err(exit_file(rt, name, fault)),
    };
    let site = match site_name(rt.alloc(), site_file) {
        Ok(site) => site,
        Err(_) => return Err(exit_no_memory(rt)),
    };
    let clock = StampClock::new().read(rt.alloc(), rt);
    match open_journal(rt.alloc(), config, site, disk, clock) {
        Ok(opened) => Ok(opened),
        Err(unopened) => Err(exit_unopened(rt, name, unopened.fault)),
    }
}

/// Returns the path of the file of this name in a folder. If memory runs out, prints that and
/// returns the exit status.
pub fn path_of<R: Eprint + AllocGlobal>(
    rt: &R,
    folder: &str,
    name: &str,
) -> Result<String, ExitCode>
    ensures path { IfOk result (λ path. string_bytes path ≡ path_in folder.now name.now) }
    ensures failed { IfErr result IsFailed }
{
    match path_in(rt.alloc(), folder, name) {
        Ok(path) => Ok(path),
        Err(_) => Err(exit_no_memory(rt)),
    }
}

/// Prints why the file or folder of this name can't be used, and returns the exit status.
pub fn exit_file<R: Eprint + AllocGlobal>(rt: &R, name: &str, fault: FileFault) -> ExitCode
    ensures { IsFailed result }
{
    match fault {
        FileFault::NoMemory => exit_no_memory(rt),
        FileFault::Unread(error) => exit_unopenable(rt, name, &error),
        FileFault::NoFile => {
            exit_with(
                eprintln!(rt; "cannot read {name}: not a regular file"),
                FAULT,
            )
        }
        FileFault::NoLock => exit_with(
            eprintln!(rt; "cannot read {name}: its lock is no regular file"),
            FAULT,
        ),
        FileFault::NoChapter => exit_with(
            eprintln!(rt; "cannot read {name}: its last chapter is no regular file"),
            FAULT,
        ),
        FileFault::Blocked => exit_with(
            eprintln!(rt;
                "fault 62\n\
                 cannot write {name}: something else has this name, or the same with .starting"
            ),
            FAULT,
        ),
        FileFault::Unmade(error) => exit_unmade(rt, name, &error),
        FileFault::InUse => exit_with(
            eprintln!(rt;
                "history in use\n\
                 stop the station that has {name} (fuser -v {name}/lock shows who has it locked), \
                 and print into none of its files"
            ),
            FAULT,
        ),
        FileFault::Untold => ExitCode::from(FAULT),
        FileFault::Unwritten(error) => exit_unstored(rt, name, &error),
        FileFault::Missing(number) => exit_folder(rt, name, FolderFault::Missing(number)),
    }
}

/// Prints why a history's folder, or a file in it, can't be opened or locked, and below it what to
/// look at. Returns the exit status.
fn exit_unopenable<R: Eprint + AllocGlobal>(rt: &R, name: &str, error: &Error) -> ExitCode
    ensures { IsFailed result }
{
    let status = exit_unread(rt, name, error);
    let advice = match error.kind() {
        ErrorKind::NotFound | ErrorKind::NotADirectory | ErrorKind::FilesystemLoop => NAME_A_FOLDER,
        _ => {
            "see that this user owns the history's folder and each file in it, that more files may \
             be open (ulimit -n), and that the disk may be written"
        }
    };
    let _ = eprintln!(rt; "{advice}");
    status
}

/// Prints why a history's folder isn't there and can't be made, and below it what to do, if
/// something is known. Returns the exit status.
fn exit_unmade<R: Eprint + AllocGlobal>(rt: &R, name: &str, error: &Error) -> ExitCode
    ensures { IsFailed result }
{
    let status = exit_unread(rt, name, error);
    let advice = match error.kind() {
        ErrorKind::NotFound | ErrorKind::PermissionDenied => {
            "see that the folder above it exists, that this user may enter it, and, if the folder \
             is new, may write there"
        }
        ErrorKind::NotADirectory | ErrorKind::FilesystemLoop => NAME_A_FOLDER,
        _ => return status,
    };
    let _ = eprintln!(rt; "{advice}");
    status
}

/// Prints why the history in the folder of this name isn't opened, and returns the exit status.
fn exit_unopened(rt: &impl Eprint, name: &str, fault: OpenFault) -> ExitCode
    ensures { IsFailed result }
{
    match fault {
        OpenFault::NoMemory => exit_no_memory(rt),
        OpenFault::Unread => exit_with(
            eprintln!(rt;
                "cannot read {name}\n\
                 a chapter can't be read or flushed: see that each is a file that this user may \
                 read (forecourt verify {name} names one that isn't), and whether the disk fails"
            ),
            FAULT,
        ),
        OpenFault::Unwritten => exit_with(
            eprintln!(rt;
                "fault 62\n\
                 the last chapter in {name} can't be written: see whether the disk is full or \
                 fails, that this user may write to the folder, and that nothing in it but a file \
                 is called *.starting"
            ),
            FAULT,
        ),
        OpenFault::Refused(fault) => exit_history(rt, name, fault),
    }
}
