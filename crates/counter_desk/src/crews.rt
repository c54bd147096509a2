//! A crew: a worker for each list of calls, each in its own thread.

ghost use Rattle.std.specs.Prelude.{◌≡◌, ◌≤◌, length, map, vec_items, IfOk};
ghost use Rattle.counter_desk.specs.declared.crews.TheConstants.{WORKERS};
ghost use Rattle.counter_desk.specs.Crews.{IsJoined};
ghost use Rattle.counter_desk.specs.Work.{EachEnds, IsWorkersEnd};

use crate::desk::Desk;
use crate::gate::Gate;
use crate::naming::Naming;
use crate::root::Root;
use crate::worker::{ListEnd, WorkFault, work};
use site_base::{Actor, Event, NoMemory};
use std::alloc::Global;
use std::sync::ledger::Ledger;
use std::sync::{Mutex, Wait};
use std::thread;
use std::thread::{Promise, PromisedHandle, Scope, Threads};

/// The most workers of one crew.
pub const WORKERS: usize = 16;

/// What a worker promises: an end of these calls.
#[derive(Clone, Copy)]
struct EndOf<'a>(&'a [(Actor, Event)]);

impl<'a> Promise<ListEnd> for EndOf<'a> {
    ghost use Rattle.counter_desk.specs.Work.{IsWorkersEnd};

    ghost kept_by = { λ p end. IsWorkersEnd p.0.now end };
}

/// A worker's thread, if it was started.
type Started<'a> = Option<PromisedHandle<ListEnd, EndOf<'a>>>;

/// Makes the calls of each list by a worker of its own, in parallel. Each takes a share from the
/// root, works through its list and hands the share back. The result has one end for each list, in
/// their order: that of its worker, or, if the worker couldn't be started, one that says so; then
/// no share was given and nothing was placed. An allocation that fails here is reported before any
/// worker starts. A thread takes its share itself and hands it back, because it can't return one.
pub fn crew<
    L: Ledger + Send + Sync,
    C: Naming + Send + Sync,
    G: Gate + Sync,
    R: Threads + Wait + Sync,
>(
    rt: &R,
    alloc: Global,
    desk: &Desk<L, C>,
    root: &Mutex<Root<L, C>>,
    gate: &G,
    lists: &[Vec<(Actor, Event)>],
) -> Result<Vec<ListEnd>, NoMemory>
    requires { length lists.now ≤ WORKERS }
    ensures { IfOk result (λ ends. EachEnds (map vec_items lists.now) ends.items) }
{
    thread::scope(
        thread::scope_env(),
        rt,
        |scope| -> Result<Vec<ListEnd>, NoMemory>
            ensures { IfOk result (λ ends. EachEnds (map vec_items lists.entry.now) ends.items) }
        { run_all(scope, rt, alloc, desk, root, gate, lists) },
    )
}

/// Starts the workers, and waits for their ends.
fn run_all<
    's,
    E,
    L: Ledger + Send + Sync,
    C: Naming + Send + Sync,
    G: Gate + Sync,
    R: Threads + Wait + Sync,
>(
    scope: &Scope<'s, E>,
    rt: &'s R,
    alloc: Global,
    desk: &'s Desk<L, C>,
    root: &'s Mutex<Root<L, C>>,
    gate: &'s G,
    lists: &'s [Vec<(Actor, Event)>],
) -> Result<Vec<ListEnd>, NoMemory>
    ensures { IfOk result (λ ends. EachEnds (map vec_items lists.now) ends.items) }
{
    // What can fail for memory comes before any worker starts.
    let mut started: Vec<Started<'s>> = Vec::with_capacity(alloc, lists.len())?;
    let mut ends = Vec::with_capacity(alloc, lists.len())?;
    for list in lists {
        let calls = list.as_slice();
        let job = move || -> ListEnd
            ensures { IsWorkersEnd calls.entry.now result }
        { work_once(rt, desk, root, gate, calls) };
        match scope.spawn_with(EndOf(calls), job) {
            Ok(handle) => started.push_reserved(Some(handle)),
            Err(_) => started.push_reserved(None),
        }
    }
    for handle in started {
        ends.push_reserved(join_one(rt, handle));
    }
    Ok(ends)
}

/// The end of a worker; of one that couldn't be started, that it wasn't.
fn join_one<'a, R: Threads>(rt: &R, handle: Started<'a>) -> ListEnd
    ensures { IsJoined handle.entry result }
{
    match handle {
        Some(handle) => handle.join(rt),
        None => ListEnd {
            placed: 0,
            accepted: 0,
            fault: Some(WorkFault::NoWorker),
        },
    }
}

/// Takes a share, works through the list, and hands the share back.
fn work_once<L: Ledger, C: Naming, G: Gate, R: Wait>(
    rt: &R,
    desk: &Desk<L, C>,
    root: &Mutex<Root<L, C>>,
    gate: &G,
    calls: &[(Actor, Event)],
) -> ListEnd
    ensures { IsWorkersEnd calls.now result }
{
    let given = root.lock(rt).give();
    match given {
        Ok(mut share) => {
            let end = work(rt, desk, &mut share, gate, calls);
            root.lock(rt).take_back(share);
            end
        }
        Err(_) => ListEnd {
            placed: 0,
            accepted: 0,
            fault: Some(WorkFault::NoMemory),
        },
    }
}
