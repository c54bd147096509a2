//! Files that a command reads as a whole.

ghost use Rattle.std.specs.Prelude.{◌≡◌, IfErr, IfOk, Ok};
ghost use Rattle.std.specs.Process.{exit_status};
ghost use Rattle.program_io.specs.Statuses.{IsFailed};
ghost use Rattle.site_file.specs.SiteFile.{config_of};

use crate::exit::{FAULT, exit_fault, exit_no_memory, exit_unwritten, exit_with};
use site_base::SiteConfig;
use site_file::{ConfigFault, read_config};
use site_file_words::explain_fault;
use std::alloc::{AllocError, Global};
use std::fs;
use std::io::{Error, ErrorKind};
use std::process::ExitCode;
use std::rt::Files;

/// Reads the site from the file of this name. If the file can't be read or has a fault, prints that
/// and returns the exit status.
pub fn read_site<R: Files + Eprint + AllocGlobal>(
    rt: &R,
    name: &str,
) -> Result<SiteConfig, ExitCode>
    ensures failed { IfErr result IsFailed }
{
    let (config, _) = read_site_file(rt, name)?;
    Ok(config)
}

/// Does the same as `read_site`, and returns the octets of the file too.
pub fn read_site_file<R: Files + Eprint + AllocGlobal>(
    rt: &R,
    name: &str,
) -> Result<(SiteConfig, Vec<u8>), ExitCode>
    ensures read { IfOk result (λ site. config_of site.1.items ≡ Ok site.0) }
    ensures failed { IfErr result IsFailed }
{
    let octets = read_file(rt, name)?;
    match read_config(rt.alloc(), &octets) {
        Ok(config) => Ok((config, octets)),
        Err(ConfigFault::NoMemory) => Err(exit_no_memory(rt)),
        Err(fault) => Err(exit_site_fault(rt, &octets, fault)),
    }
}

/// Prints a site file's fault, and below it where it is, what was found and what was expected. If
/// there is no memory for that, the fault stands alone.
fn exit_site_fault<R: Eprint + AllocGlobal>(rt: &R, octets: &[u8], fault: ConfigFault) -> ExitCode
    ensures { exit_status result ≡ FAULT }
{
    let explanation = explain_fault(rt.alloc(), octets, &fault);
    let code = exit_fault(rt, fault, FAULT);
    match explanation {
        Ok(text) => exit_with(eprint!(rt; "{text}"), FAULT),
        Err(_) => code,
    }
}

/// Reads the octets of the file of this name. On an error, prints it and returns the exit status.
pub fn read_file<R: Files + Eprint + AllocGlobal>(rt: &R, name: &str) -> Result<Vec<u8>, ExitCode>
    ensures failed { IfErr result IsFailed }
{
    match fs::read(rt, name) {
        Ok(octets) => Ok(octets),
        Err(error) if error.kind() == ErrorKind::OutOfMemory => Err(exit_no_memory(rt)),
        Err(error) => Err(exit_unread(rt, name, &error)),
    }
}

/// Prints that a file or folder can't be read, and why, in the system's words. If memory runs out
/// for them, they are left out. Returns `FAULT`.
pub fn exit_unread<R: Eprint + AllocGlobal>(rt: &R, name: &str, error: &Error) -> ExitCode
    ensures { exit_status result ≡ FAULT }
{
    match words_of(rt.alloc(), error) {
        Ok(words) => exit_with(eprintln!(rt; "cannot read {name}: {words}"), FAULT),
        Err(_) => exit_with(eprintln!(rt; "cannot read {name}"), FAULT),
    }
}

/// Prints `fault 62`, and below it which file or folder can't be written, and why, in the system's
/// words. If memory runs out for them, they are left out. Returns `FAULT`.
pub fn exit_unstored<R: Eprint + AllocGlobal>(rt: &R, name: &str, error: &Error) -> ExitCode
    ensures { exit_status result ≡ FAULT }
{
    match words_of(rt.alloc(), error) {
        Ok(words) => exit_with(
            eprintln!(rt; "fault 62\ncannot write {name}: {words}"),
            FAULT,
        ),
        Err(_) => exit_unwritten(rt),
    }
}

/// The words of an error of the system, without the error's number behind them.
pub fn words_of(alloc: Global, error: &Error) -> Result<String, AllocError> {
    let text = format!(in alloc; "{error}")?;
    match text.as_str().split_once(" (os error ") {
        Some((words, _)) => Ok(String::from_str(alloc, words)?),
        None => Ok(text),
    }
}

/// Is there a folder of this name?
pub fn is_folder(rt: &impl Files, name: &str) -> bool {
    match fs::metadata(rt, name) {
        Ok(metadata) => metadata.is_dir(),
        Err(_) => false,
    }
}
