//! Sections that are worked through in parallel, with the sessions of tills over sockets.

ghost use Rattle.std.specs.Prelude.{◌≤◌, ◌+◌, vec_capacity, vec_len};

use crate::client::send_all;
use crate::demo_fault::DemoFault;
use crate::listener::Loopback;
use crate::over_memory::run_over_memory;
use crate::section::work_at;
use crate::workers::{Anything, Worker, join_all, room_for};
use app_message::Messages;
use counter_desk::{Desk, Naming, OpenGate, Root, WORKERS};
use demo::Section;
use site_base::SiteConfig;
use std::alloc::Global;
use std::net::{Ipv4Addr, Net, SocketAddr, SocketAddrV4, TcpListener, TcpStream};
use std::sync::ledger::Ledger;
use std::sync::{Mutex, Wait};
use std::thread;
use std::thread::{Scope, Threads};
use till_session::{SESSIONS, SessionEnd, SessionFault, serve};

/// A worker's part: the section of a dispenser, or the client of a till's section with its
/// connection.
#[derive(Drop)]
enum Part<'a> {
    Section(&'a Section),
    Client(&'a Messages, TcpStream),
}

/// Works through the sections in parallel. A dispenser's section has a worker with its own share. A
/// till's section has a client, whose session is served on a free port of 127.0.0.1 by the worker
/// that draws it. All clients are connected before the first session is served.
pub fn run_over_loopback<
    N: Net<Listener = TcpListener, Stream = TcpStream>,
    L: Ledger + Send + Sync,
    C: Naming + Send + Sync,
    R: Threads + Wait + Sync,
>(
    net: &N,
    rt: &R,
    alloc: Global,
    config: &SiteConfig,
    desk: &Desk<L, C>,
    root: &Mutex<Root<L, C>>,
    sections: &[Section],
    turns: u64,
) -> Result<(), DemoFault> {
    let tills = tills_in(sections);
    if tills == 0 {
        return run_over_memory(rt, alloc, config, desk, root, sections, turns);
    }
    let Ok(listener) = Loopback::bind(net, 0) else {
        return Err(DemoFault::NoConnection);
    };
    let parts = parts_of(net, alloc, listener.port(), sections)?;
    thread::scope(
        thread::scope_env(),
        rt,
        |scope| -> Result<(), DemoFault>
            requires { 1 ≤ tills }
        {
            let mut workers = room_for(alloc, parts.len())?;
            let started = start_all(
                scope,
                rt,
                alloc,
                config,
                desk,
                root,
                parts,
                turns,
                &mut workers,
            );
            let served = serve_tills(rt, alloc, listener, desk, root, tills, turns);
            join_all(rt, workers);
            started?;
            served
        },
    )
}

/// How many sections are tills'.
fn tills_in(sections: &[Section]) -> usize {
    sections
        .iter()
        .filter(|section| matches!(section, Section::Till(_)))
        .count()
}

/// The part of each section, with a connection for each till's.
fn parts_of<'a, N: Net<Listener = TcpListener, Stream = TcpStream>>(
    net: &N,
    alloc: Global,
    port: u16,
    sections: &'a [Section],
) -> Result<Vec<Part<'a>>, DemoFault> {
    let mut parts = room_for(alloc, sections.len())?;
    for section in sections {
        parts.push_reserved(part_of(net, port, section)?);
    }
    Ok(parts)
}

/// The part of a section.
fn part_of<'a, N: Net<Listener = TcpListener, Stream = TcpStream>>(
    net: &N,
    port: u16,
    section: &'a Section,
) -> Result<Part<'a>, DemoFault> {
    let Section::Till(messages) = section else {
        return Ok(Part::Section(section));
    };
    let there = SocketAddr::V4(SocketAddrV4::new(Ipv4Addr::LOCALHOST, port));
    match TcpStream::connect(net, there) {
        Ok(stream) => {
            let _ = stream.set_nodelay(true);
            Ok(Part::Client(messages, stream))
        }
        Err(_) => Err(DemoFault::NoConnection),
    }
}

/// Starts a worker for each part. `NoWorker` where one couldn't be started: then a client's
/// connection is closed, and the others work all the same.
fn start_all<'s, E, L: Ledger + Send + Sync, C: Naming + Send + Sync, R: Threads + Wait + Sync>(
    scope: &Scope<'s, E>,
    rt: &'s R,
    alloc: Global,
    config: &'s SiteConfig,
    desk: &'s Desk<L, C>,
    root: &'s Mutex<Root<L, C>>,
    parts: Vec<Part<'s>>,
    turns: u64,
    workers: &mut Vec<Worker>,
) -> Result<(), DemoFault>
    requires { vec_len workers.old + vec_len parts ≤ vec_capacity workers.old }
{
    let mut started = Ok(());
    for part in parts {
        let job = move || { do_part(rt, alloc, config, desk, root, part, turns) };
        match scope.spawn_with(Anything, job) {
            Ok(handle) => workers.push_reserved(handle),
            Err(_) => started = Err(DemoFault::NoWorker),
        }
    }
    started
}

/// Does one part.
fn do_part<'a, L: Ledger, C: Naming, R: Wait>(
    rt: &R,
    alloc: Global,
    config: &SiteConfig,
    desk: &Desk<L, C>,
    root: &Mutex<Root<L, C>>,
    part: Part<'a>,
    turns: u64,
) {
    match part {
        Part::Section(section) => work_at(rt, alloc, config, desk, root, section, turns),
        Part::Client(messages, stream) => send_all(alloc, stream, messages, turns),
    }
}

/// Serves the tills' sessions, by as many workers, at most 16, which draw them.
fn serve_tills<L: Ledger + Send + Sync, C: Naming + Send + Sync, R: Threads + Wait + Sync>(
    rt: &R,
    alloc: Global,
    listener: Loopback,
    desk: &Desk<L, C>,
    root: &Mutex<Root<L, C>>,
    tills: usize,
    turns: u64,
) -> Result<(), DemoFault>
    requires { 1 ≤ tills }
{
    let (workers, sessions) = (tills.min(WORKERS), tills.min(SESSIONS));
    let gate = OpenGate;
    let ends = serve(
        rt, alloc, listener, desk, root, &gate, workers, sessions, turns,
    )?;
    judge(&ends, sessions)
}

/// `NoWorker` where not every session was drawn, `NoConnection` where one had no connection.
fn judge(ends: &[SessionEnd], sessions: usize) -> Result<(), DemoFault> {
    if ends.len() < sessions {
        return Err(DemoFault::NoWorker);
    }
    if ends
        .iter()
        .any(|end| end.fault == Some(SessionFault::Accept))
    {
        return Err(DemoFault::NoConnection);
    }
    Ok(())
}
