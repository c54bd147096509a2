//! `forecourt demo FILE SCRIPT`.

ghost use Rattle.std.specs.Prelude.{IfErr};
ghost use Rattle.program_io.specs.Statuses.{IsFailed};

use crate::ends::exit_desk;
use command_line::DemoOptions;
use demo::{DemoScript, ScriptFault, read_script};
use desk_days::{DemoPlan, demo_day};
use devices::Counted;
use program_io::{FAULT, TURNS, exit_no_memory, exit_with, read_file, read_site};
use site_base::SiteConfig;
use std::io;
use std::net::{Net, TcpListener, TcpStream};
use std::process::ExitCode;
use std::rt::Files;
use std::sync::Wait;
use std::thread::Threads;
use unmarked_input::skip_mark;

/// Runs the demo of a script, and prints its report. Faults of the site file are reported before
/// those of the script.
pub fn run_demo<R, T>(rt: &R, threads: &T, options: DemoOptions<'_>) -> ExitCode
where
    R: Files + Net<Listener = TcpListener, Stream = TcpStream> + Print + Eprint + AllocGlobal,
    T: Threads + Wait + Sync,
{
    let config = match read_site(rt, options.site) {
        Ok(config) => config,
        Err(status) => return status,
    };
    match read_demo_script(rt, options.script) {
        Ok(script) => run_script(rt, threads, &config, &script, options.loopback),
        Err(status) => status,
    }
}

/// The script of the file of this name, without its byte order mark, or how the program ends: the
/// file can't be read, or has a faulty line.
fn read_demo_script<R: Files + Eprint + AllocGlobal>(
    rt: &R,
    name: &str,
) -> Result<DemoScript, ExitCode>
    ensures failed { IfErr result IsFailed }
{
    let octets = read_file(rt, name)?;
    let text = skip_mark(&octets);
    match read_script(rt.alloc(), text) {
        Ok(script) => Ok(script),
        Err(ScriptFault::NoMemory) => Err(exit_no_memory(rt)),
        Err(ScriptFault::Line(number)) => Err(exit_line(rt, number, text)),
    }
}

/// Prints that the line of this number, counted from 1, of a script is faulty, the line itself, if
/// it can be printed, and what to do. Returns the exit status.
fn exit_line(rt: &impl Eprint, number: u64, script: &[u8]) -> ExitCode
    ensures { IsFailed result }
{
    let _ = eprintln!(rt; "script line {number}");
    if let Some(line) = printable_line(script, number) {
        let _ = eprintln!(rt; "{line}");
    }
    exit_with(
        eprintln!(rt;
            "no such line may stand there, or it is the last one, and there is no section: see \
             'Demo scripts' in PROGRAM.md"
        ),
        FAULT,
    )
}

/// The line of this number, counted from 1, if it is printable ASCII.
fn printable_line(script: &[u8], number: u64) -> Option<&str> {
    let mut lines = script.split(|octet| *octet == b'\n');
    let line = lines.nth(number.checked_sub(1)? as usize)?;
    if line.iter().all(|octet| matches!(octet, b' '..=b'~')) {
        str::from_utf8(line).ok()
    } else {
        None
    }
}

/// Runs a script on this site, and prints its report.
fn run_script<R, T>(
    rt: &R,
    threads: &T,
    config: &SiteConfig,
    script: &DemoScript,
    loopback: bool,
) -> ExitCode
where
    R: Net<Listener = TcpListener, Stream = TcpStream> + Print + Eprint + AllocGlobal,
    T: Threads + Wait + Sync,
{
    let plan = DemoPlan {
        loopback,
        turns: TURNS,
    };
    let mut writer = Counted::new(io::writer(rt));
    let mut left = plan.turns;
    let end = demo_day(
        rt,
        threads,
        rt.alloc(),
        config,
        script,
        plan,
        &mut left,
        &mut writer,
    );
    exit_desk(rt, end)
}
