//! The site file of a folder.

ghost use Rattle.std.specs.Prelude.{◌≡◌, IfErr, IfOk, Ok};
ghost use Rattle.program_io.specs.Statuses.{IsFailed};
ghost use Rattle.site_file.specs.SiteFile.{config_of};

use crate::names::{SITE_FILE, path_in};
use crate::whole_file::read_flushed_file;
use program_io::{FAULT, exit_no_memory, exit_with};
use site_base::SiteConfig;
use site_file::{ConfigFault, read_config};
use std::fs;
use std::process::ExitCode;
use std::rt::Files;

/// What to do about a faulty site file of a folder, once it is known where it is faulty.
const MEND_SITE_FILE: &str =
    "if a station has run on this file, put it back from a backup, otherwise correct it";

/// Reads the site of a folder, with the octets of its site file, which are flushed. If the file
/// can't be read or has a fault, prints that, and what to do if there is no such file, and returns
/// the exit status.
pub fn read_folder_site<R: Files + Eprint + AllocGlobal>(
    rt: &R,
    folder: &str,
) -> Result<(SiteConfig, Vec<u8>), ExitCode>
    ensures read { IfOk result (λ site. config_of site.1.items ≡ Ok site.0) }
    ensures failed { IfErr result IsFailed }
{
    let path = match path_in(rt.alloc(), folder, SITE_FILE) {
        Ok(path) => path,
        Err(_) => return Err(exit_no_memory(rt)),
    };
    let octets = match read_flushed_file(rt, path.as_str()) {
        Ok(octets) => octets,
        Err(status) => {
            if fs::metadata(rt, path.as_str()).is_err() {
                let _ = eprintln!(rt;
                    "see that {folder} is the folder of a history, and that its disk is mounted"
                );
            }
            return Err(status);
        }
    };
    let config = site_in_folder(rt, path.as_str(), &octets)?;
    Ok((config, octets))
}

/// Reads the site from the octets of a folder's site file, whose path this is. If they have a
/// fault, prints that, and what to do, and returns the exit status.
pub fn site_in_folder<R: Eprint + AllocGlobal>(
    rt: &R,
    path: &str,
    octets: &[u8],
) -> Result<SiteConfig, ExitCode>
    ensures read { IfOk result (λ config. config_of octets.now ≡ Ok config) }
    ensures failed { IfErr result IsFailed }
{
    match read_config(rt.alloc(), octets) {
        Ok(config) => Ok(config),
        Err(ConfigFault::NoMemory) => Err(exit_no_memory(rt)),
        Err(fault) => Err(exit_with(
            eprintln!(rt;
                "{SITE_FILE}: {fault}\n\
                 forecourt check {path} shows where: {MEND_SITE_FILE}"
            ),
            FAULT,
        )),
    }
}
