//! The site of a station: from its site file, or from the folder of its history.

ghost use Rattle.std.specs.Prelude.{◌≡◌, ◌≢◌, ◌≤◌, IfErr, IfOk, Ok, OnErr, OnOk, nat_lt};
ghost use Rattle.journal.specs.declared.memory.TheConstants.{LEAST_ROWS};
ghost use Rattle.program_io.specs.Statuses.{IsFailed};
ghost use Rattle.site_file.specs.SiteFile.{config_of};

use crate::histories::{exit_file, path_of};
use history_files::HistoryFolder;
use history_folder::{SITE_FILE, site_in_folder};
use journal::LEAST_ROWS;
use program_io::{FAULT, exit_with, read_site_file};
use site_base::SiteConfig;
use site_text::is_same_site;
use std::fs::File;
use std::process::ExitCode;
use std::rt::Files;

/// Reads the site of the file of this name, with its octets. If the file can't be read, has a fault
/// or allows fewer than 1,024 rows, prints that and returns the exit status: with fewer rows, those
/// of one read could fill a station's book.
pub fn read_station_site<R: Files + Eprint + AllocGlobal>(
    rt: &R,
    name: &str,
) -> Result<(SiteConfig, Vec<u8>), ExitCode>
    ensures read { IfOk result (λ site. config_of site.1.items ≡ Ok site.0) }
    ensures rows { IfOk result (λ site. LEAST_ROWS ≤ site.0.rows) }
    ensures failed { IfErr result IsFailed }
{
    let (config, site_file) = read_site_file(rt, name)?;
    if has_few_rows(&config) {
        return Err(exit_with(
            eprintln!(rt;
                "fault 74 rows\n\
                 rows is {}, and at least {LEAST_ROWS} for a station: raise it in {name}, or leave \
                 it out",
                config.rows()
            ),
            FAULT,
        ));
    }
    Ok((config, site_file))
}

/// Allows the site too few rows for a station?
fn has_few_rows(config: &SiteConfig) -> bool
    ensures { result ≡ nat_lt config.now.rows LEAST_ROWS }
{
    (config.rows() as usize) < LEAST_ROWS
}

/// Reads the site of the history in the folder of this name, with the octets of its site file. If a
/// site file is given, it has to describe the same site. In a folder without chapters and without a
/// site file, the given file is kept as the folder's. On an error, prints it and returns the exit
/// status.
pub fn history_site<R: Files<File = File> + Eprint + AllocGlobal>(
    rt: &R,
    folder: &HistoryFolder<'_, R>,
    name: &str,
    site: Option<&str>,
) -> Result<(SiteConfig, Vec<u8>), ExitCode>
    ensures read { IfOk result (λ site. config_of site.1.items ≡ Ok site.0) }
    ensures rows { IfOk result (λ site. LEAST_ROWS ≤ site.0.rows) }
    ensures failed { IfErr result IsFailed }
{
    let path = path_of(rt, name, SITE_FILE)?;
    match folder.site_file() {
        Ok(Some(octets)) => kept_site(rt, path.as_str(), octets, site),
        Ok(None) => first_site(rt, folder, path.as_str(), site),
        Err(fault) => Err(exit_file(rt, path.as_str(), fault)),
    }
}

/// The site of a folder that has no site file: that of the given one, which is kept under this
/// path. A folder with chapters has lost its own, and so the program ends.
fn first_site<R: Files<File = File> + Eprint + AllocGlobal>(
    rt: &R,
    folder: &HistoryFolder<'_, R>,
    path: &str,
    site: Option<&str>,
) -> Result<(SiteConfig, Vec<u8>), ExitCode>
    ensures read { IfOk result (λ site. config_of site.1.items ≡ Ok site.0) }
    ensures rows { IfOk result (λ site. LEAST_ROWS ≤ site.0.rows) }
    ensures failed { IfErr result IsFailed }
{
    let chapters = folder.chapters();
    let Some(site) = site else {
        return Err(exit_without_site(rt, path, chapters));
    };
    let (config, octets) = read_station_site(rt, site)?;
    if chapters > 0 {
        return Err(exit_without_site(rt, path, chapters));
    }
    match folder.keep_site_file(&octets) {
        Ok(()) => Ok((config, octets)),
        Err(fault) => Err(exit_file(rt, path, fault)),
    }
}

/// Prints that a folder with this many chapters has no site file, whose path this is, and what to
/// do. Returns the exit status.
fn exit_without_site(rt: &impl Eprint, path: &str, chapters: u64) -> ExitCode
    ensures { IsFailed result }
{
    let advice = if chapters == 0 {
        "if this is the first start, give a site file: forecourt station FILE --history FOLDER .., \
         or put it there, as a file of the station's user; otherwise see that the folder's name is \
         right, and that its disk is mounted"
    } else {
        "the history has lost its site file: put it back from a backup"
    };
    exit_with(eprintln!(rt; "cannot read {path}\n{advice}"), FAULT)
}

/// The site that the octets of a folder's site file say, whose path this is, with them, or how the
/// program ends: they have a fault, or say another site than the file that is given, if one is.
fn kept_site<R: Files + Eprint + AllocGlobal>(
    rt: &R,
    path: &str,
    octets: Vec<u8>,
    site: Option<&str>,
) -> Result<(SiteConfig, Vec<u8>), ExitCode>
    ensures read { IfOk result (λ site. config_of site.1.items ≡ Ok site.0) }
    ensures octets { IfOk result (λ site. site.1.items ≡ octets.items) }
    ensures rows { IfOk result (λ site. LEAST_ROWS ≤ site.0.rows) }
    ensures failed { IfErr result IsFailed }
{
    let Some(site) = site else {
        let config = read_kept(rt, path, &octets)?;
        return Ok((config, octets));
    };
    let (given, _) = read_station_site(rt, site)?;
    let config = read_kept(rt, path, &octets)?;
    check_same(rt, &config, path, &given, site)?;
    Ok((config, octets))
}

/// The site that the octets of a folder's site file say, whose path this is, or how the program
/// ends.
fn read_kept<R: Eprint + AllocGlobal>(
    rt: &R,
    path: &str,
    octets: &[u8],
) -> Result<SiteConfig, ExitCode>
    ensures read { IfOk result (λ config. config_of octets.now ≡ Ok config) }
    ensures rows { IfOk result (λ config. LEAST_ROWS ≤ config.rows) }
    ensures failed { IfErr result IsFailed }
{
    let config = site_in_folder(rt, path, octets)?;
    if has_few_rows(&config) {
        return Err(exit_with(
            eprintln!(rt;
                "{SITE_FILE}: fault 74 rows\n\
                 rows in {path} is {}, and at least {LEAST_ROWS} for a station: if one has run on \
                 this file, put it back from a backup, otherwise raise it",
                config.rows()
            ),
            FAULT,
        ));
    }
    Ok(config)
}

/// Fails where the site of a history, whose site file has this path, isn't the one that is given by
/// the file of this name: says so, and what to do.
fn check_same(
    rt: &impl Eprint,
    config: &SiteConfig,
    path: &str,
    given: &SiteConfig,
    name: &str,
) -> Result<(), ExitCode>
    ensures same { OnOk result (config.now ≡ given.now) }
    ensures another { OnErr result (config.now ≢ given.now) }
    ensures failed { IfErr result IsFailed }
{
    if is_same_site(config, given) {
        return Ok(());
    }
    Err(exit_with(
        eprintln!(rt;
            "history of another site\n\
             {name} describes another site than {path}: leave it out, or give the file with which \
             the history began"
        ),
        FAULT,
    ))
}
