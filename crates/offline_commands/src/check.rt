//! `forecourt check FILE`.

use forecourt_engines::Sizes;
use program_io::{exit_unwritten, read_site};
use std::process::ExitCode;
use std::rt::Files;

/// Reads a site file, and prints how large the site is.
pub fn run_check<R: Files + Print + Eprint + AllocGlobal>(rt: &R, site: &str) -> ExitCode {
    match read_site(rt, site) {
        Ok(config) => {
            let sizes = Sizes::of(&config);
            match println!(rt; "ok {sizes}") {
                Ok(()) => ExitCode::SUCCESS,
                Err(_) => exit_unwritten(rt),
            }
        }
        Err(status) => status,
    }
}
