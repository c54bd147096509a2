//! `forecourt replay FILE`, and the program without arguments.

ghost use Rattle.std.specs.Prelude.{◌≡◌, IfErr, None, OnOk, false};
ghost use Rattle.std.specs.Process.{exit_status};
ghost use Rattle.program_io.specs.declared.exit.TheConstants.{COMMAND_LINE};

use crate::history_option::refuse_option;
use crate::named_site::{exit_named, open_input};
use command_line::ReplayOptions;
use devices::Counted;
use forecourt_engines::replay::replay;
use forecourt_engines::{ReplayFault, known_site};
use program_io::{TURNS, exit_no_memory, exit_replay};
use site_base::SiteConfig;
use std::io;
use std::io::Read;
use std::process::ExitCode;
use std::rt::Files;

/// Answers this input on the site of a file.
pub fn run_replay<R: Files + Print + Eprint + AllocGlobal, I: Read + Drop>(
    rt: &R,
    input: I,
    options: ReplayOptions<'_>,
) -> ExitCode {
    if let Err(status) = refuse_options(rt, &options) {
        return status;
    }
    match open_input(rt, options.site, input) {
        Ok((config, mut input)) => {
            let fault = replay_on(rt, &mut input, &config, options.changes);
            exit_named(rt, &input, fault)
        }
        Err(status) => status,
    }
}

/// How the program ends where rows of a history are asked for.
fn refuse_options(rt: &impl Eprint, options: &ReplayOptions<'_>) -> Result<(), ExitCode>
    ensures shift { OnOk result (options.now.shift ≡ None) }
    ensures json { OnOk result (options.now.json ≡ false) }
    ensures from { OnOk result (options.now.from ≡ None) }
    ensures failed { IfErr result (λ status. exit_status status ≡ COMMAND_LINE) }
{
    refuse_option(rt, "shift", options.shift.is_some())?;
    refuse_option(rt, "json", options.json)?;
    refuse_option(rt, "from", options.from.is_some())
}

/// Answers this input on the known site.
pub fn run_replay_here<R: Print + Eprint + AllocGlobal, I: Read + Drop>(
    rt: &R,
    input: I,
) -> ExitCode {
    match known_site(rt.alloc()) {
        Ok(config) => exit_replay(rt, replay_on(rt, &mut Counted::new(input), &config, false)),
        Err(_) => exit_no_memory(rt),
    }
}

/// Answers this input on this site. Returns with which fault the replay ended, if it did with one.
fn replay_on<R: Print + AllocGlobal, I: Read + Drop>(
    rt: &R,
    input: &mut Counted<I>,
    config: &SiteConfig,
    changes: bool,
) -> Option<ReplayFault> {
    let mut writer = Counted::new(io::writer(rt));
    let end = replay(rt.alloc(), config, input, &mut writer, TURNS, changes);
    end.fault
}
