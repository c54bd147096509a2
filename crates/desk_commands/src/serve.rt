//! `forecourt serve FILE --port N --workers N --sessions N`.

use crate::ends::exit_desk;
use command_line::ServeOptions;
use day_base::{DayFault, ServerPlan};
use desk_days::{Loopback, serve_day};
use devices::Counted;
use program_io::{COMMAND_LINE, TURNS, exit_with, read_site};
use site_base::SiteConfig;
use std::io;
use std::net::{Net, TcpListener, TcpStream};
use std::process::ExitCode;
use std::rt::Files;
use std::sync::Wait;
use std::thread::Threads;

/// Serves a known number of sessions, and prints the report of the day. Wrong numbers are reported
/// first, then faults of the site file, then faults of the server.
pub fn run_serve<R, T>(rt: &R, threads: &T, options: ServeOptions<'_>) -> ExitCode
where
    R: Files + Net<Listener = TcpListener, Stream = TcpStream> + Print + Eprint + AllocGlobal,
    T: Threads + Wait + Sync,
{
    let plan = match ServerPlan::read(options.port, options.workers, options.sessions) {
        Ok(plan) => plan,
        Err(fault) => return exit_with(eprintln!(rt; "error: {fault}"), COMMAND_LINE),
    };
    match read_site(rt, options.site) {
        Ok(config) => {
            let end = serve_on(rt, threads, &config, plan);
            exit_desk(rt, end)
        }
        Err(status) => status,
    }
}

/// Listens, and serves a day on this site.
fn serve_on<R, T>(
    rt: &R,
    threads: &T,
    config: &SiteConfig,
    plan: ServerPlan,
) -> Result<(), DayFault>
where
    R: Net<Listener = TcpListener, Stream = TcpStream> + Print + AllocGlobal,
    T: Threads + Wait + Sync,
{
    let listener = Loopback::bind(rt, plan.port)?;
    let mut writer = Counted::new(io::writer(rt));
    let mut left = TURNS;
    let _settled = serve_day(
        threads,
        rt.alloc(),
        config,
        listener,
        plan,
        &mut left,
        &mut writer,
    )?;
    Ok(())
}
