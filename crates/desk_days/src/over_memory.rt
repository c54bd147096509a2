//! Sections that are worked through in parallel, with the sessions of tills in memory.

ghost use Rattle.std.specs.Prelude.{◌+◌, ◌≤◌, length, vec_capacity, vec_len};

use crate::demo_fault::DemoFault;
use crate::section::work_at;
use crate::workers::{Anything, Worker, join_all, room_for};
use counter_desk::{Desk, Naming, Root};
use demo::Section;
use site_base::SiteConfig;
use std::alloc::Global;
use std::sync::ledger::Ledger;
use std::sync::{Mutex, Wait};
use std::thread;
use std::thread::{Scope, Threads};

/// Works through the sections in parallel, each by a worker with its own share.
pub fn run_over_memory<L: Ledger + Send + Sync, C: Naming + Send + Sync, R: Threads + Wait + Sync>(
    rt: &R,
    alloc: Global,
    config: &SiteConfig,
    desk: &Desk<L, C>,
    root: &Mutex<Root<L, C>>,
    sections: &[Section],
    turns: u64,
) -> Result<(), DemoFault> {
    thread::scope(thread::scope_env(), rt, |scope| -> Result<(), DemoFault> {
        let mut workers = room_for(alloc, sections.len())?;
        let started = start_all(
            scope,
            rt,
            alloc,
            config,
            desk,
            root,
            sections,
            turns,
            &mut workers,
        );
        join_all(rt, workers);
        started
    })
}

/// Starts a worker for each section. `NoWorker` where one couldn't be started; the others work all
/// the same.
fn start_all<'s, E, L: Ledger + Send + Sync, C: Naming + Send + Sync, R: Threads + Wait + Sync>(
    scope: &Scope<'s, E>,
    rt: &'s R,
    alloc: Global,
    config: &'s SiteConfig,
    desk: &'s Desk<L, C>,
    root: &'s Mutex<Root<L, C>>,
    sections: &'s [Section],
    turns: u64,
    workers: &mut Vec<Worker>,
) -> Result<(), DemoFault>
    requires { vec_len workers.old + length sections.now ≤ vec_capacity workers.old }
{
    let mut started = Ok(());
    for section in sections {
        let job = move || { work_at(rt, alloc, config, desk, root, section, turns) };
        match scope.spawn_with(Anything, job) {
            Ok(handle) => workers.push_reserved(handle),
            Err(_) => started = Err(DemoFault::NoWorker),
        }
    }
    started
}
