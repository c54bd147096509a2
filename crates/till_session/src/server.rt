//! The server: workers that serve sessions in parallel.

ghost use Rattle.std.specs.Prelude.{◌≡◌, ◌+◌, ◌≤◌, ◌<◌, false, length, vec_capacity, vec_len, IfOk};
ghost use Rattle.std.specs.Prelude.{IfSome, Some};
ghost use Rattle.std.specs.List.{All};
ghost use Rattle.counter_desk.specs.declared.crews.TheConstants.{WORKERS};
ghost use Rattle.till_session.specs.declared.server.TheConstants.{SESSIONS};
ghost use Rattle.till_session.specs.SessionEnds.{IsDrawnEnd, IsEndOf, IsSlotOf};

use crate::accept::{Accept, NoConnection};
use crate::desk_counter::DeskCounter;
use crate::fault::SessionFault;
use crate::session::{Session, SessionEnd};
use counter_desk::{Desk, Gate, Naming, Root, Share, WORKERS};
use devices::Counted;
use site_base::NoMemory;
use std::alloc::Global;
use std::sync::ledger::Ledger;
use std::sync::{Mutex, Wait};
use std::thread;
use std::thread::{Promise, PromisedHandle, Scope, Threads};

/// The most sessions of one server.
pub const SESSIONS: usize = 10_000;

/// How many workers serve how many sessions, each with so many turns.
#[derive(Clone, Copy)]
struct Plan {
    workers: usize,
    sessions: usize,
    turns: u64,
}

/// What the workers draw from: the listener, and the number of the next session.
#[derive(Drop)]
struct Queue<A: Accept + Drop> {
    listener: A,
    next: usize,
}

impl<A: Accept + Drop> Queue<A> {
    /// Draws the number of one of so many sessions, and accepts its connection. None where all are
    /// drawn.
    fn draw(&mut self, alloc: Global, sessions: usize) -> Option<Drawn<A>>
        ensures { IfSome result (λ drawn. drawn.number < sessions) }
    {
        if self.next >= sessions {
            return None;
        }
        let number = self.next;
        self.next += 1;
        let connection = self.listener.accept(alloc);
        Some(Drawn { number, connection })
    }
}

/// A session's number, and its connection.
struct Drawn<A: Accept> {
    number: usize,
    connection: Result<(A::Reader, A::Writer), NoConnection>,
}

/// How the session of this number ended.
#[derive(Clone, Copy)]
struct NumberedEnd {
    number: usize,
    end: SessionEnd,
}

/// What a worker promises of its ends: each is that of a session of this plan which it drew. That
/// no two workers drew the same one can't be said, since the queue stands under a lock.
#[derive(Clone, Copy)]
struct DrawnEnds(Plan);

impl Promise<Vec<NumberedEnd>> for DrawnEnds {
    ghost use Rattle.std.specs.List.{All};
    ghost use Rattle.till_session.specs.SessionEnds.{IsEndOf};

    ghost kept_by = { λ promise ends. All (IsEndOf promise.0) ends.items };
}

/// A worker's thread, if it was started.
type Started = Option<PromisedHandle<Vec<NumberedEnd>, DrawnEnds>>;

/// Serves this many sessions by this many workers, in parallel. Each worker takes a share from the
/// root, draws the numbers of sessions, accepts one connection for each, serves it at the desk, and
/// hands the share back. The result has an end for each session that was drawn, in the order of the
/// sessions' numbers: that of a session of `turns` turns, or `Accept` or `NoMemory` if the listener
/// gave no connection. A worker that can't be started, or finds no memory for its share or its
/// ends, draws none. An allocation that fails here is reported before any worker starts.
pub fn serve<
    A: Accept + Send + Sync + Drop,
    L: Ledger + Send + Sync,
    C: Naming + Send + Sync,
    G: Gate + Sync,
    R: Threads + Wait + Sync,
>(
    rt: &R,
    alloc: Global,
    listener: A,
    desk: &Desk<L, C>,
    root: &Mutex<Root<L, C>>,
    gate: &G,
    workers: usize,
    sessions: usize,
    turns: u64,
) -> Result<Vec<SessionEnd>, NoMemory>
    requires workers { (1 ≤ workers) × (workers ≤ WORKERS) }
    requires sessions { (1 ≤ sessions) × (sessions ≤ SESSIONS) }
    ensures few { IfOk result (λ ends. vec_len ends ≤ sessions) }
    ensures drawn { IfOk result (λ ends. All (IsDrawnEnd turns) ends.items) }
{
    let queue = Mutex::new(Queue { listener, next: 0 });
    let plan = Plan {
        workers,
        sessions,
        turns,
    };
    serve_queue(rt, alloc, &queue, desk, root, gate, plan)
}

/// Serves the sessions of the queue.
fn serve_queue<
    A: Accept + Send + Sync + Drop,
    L: Ledger + Send + Sync,
    C: Naming + Send + Sync,
    G: Gate + Sync,
    R: Threads + Wait + Sync,
>(
    rt: &R,
    alloc: Global,
    queue: &Mutex<Queue<A>>,
    desk: &Desk<L, C>,
    root: &Mutex<Root<L, C>>,
    gate: &G,
    plan: Plan,
) -> Result<Vec<SessionEnd>, NoMemory>
    ensures few { IfOk result (λ ends. vec_len ends ≤ plan.sessions) }
    ensures drawn { IfOk result (λ ends. All (IsDrawnEnd plan.turns) ends.items) }
{
    thread::scope(
        thread::scope_env(),
        rt,
        |scope| -> Result<Vec<SessionEnd>, NoMemory>
            ensures few { IfOk result (λ ends. vec_len ends ≤ plan.sessions) }
            ensures drawn { IfOk result (λ ends. All (IsDrawnEnd plan.turns) ends.items) }
        { run_all(scope, rt, alloc, queue, desk, root, gate, plan) },
    )
}

/// Starts the workers, and waits for their ends.
fn run_all<
    's,
    E,
    A: Accept + Send + Sync + Drop,
    L: Ledger + Send + Sync,
    C: Naming + Send + Sync,
    G: Gate + Sync,
    R: Threads + Wait + Sync,
>(
    scope: &Scope<'s, E>,
    rt: &'s R,
    alloc: Global,
    queue: &'s Mutex<Queue<A>>,
    desk: &'s Desk<L, C>,
    root: &'s Mutex<Root<L, C>>,
    gate: &'s G,
    plan: Plan,
) -> Result<Vec<SessionEnd>, NoMemory>
    ensures few { IfOk result (λ ends. vec_len ends ≤ plan.sessions) }
    ensures drawn { IfOk result (λ ends. All (IsDrawnEnd plan.turns) ends.items) }
{
    // What can fail for memory comes before any worker starts.
    let mut started: Vec<Started> = Vec::with_capacity(alloc, plan.workers)?;
    let mut slots: Vec<Option<SessionEnd>> = vec![in alloc; None; plan.sessions]?;
    let ends = Vec::with_capacity(alloc, plan.sessions)?;
    for _ in 0..plan.workers {
        let job = move || -> Vec<NumberedEnd>
            ensures { All (IsEndOf plan) result.items }
        { work_once(rt, alloc, queue, desk, root, gate, plan) };
        match scope.spawn_with(DrawnEnds(plan), job) {
            Ok(handle) => started.push_reserved(Some(handle)),
            Err(_) => started.push_reserved(None),
        }
    }
    for handle in started {
        if let Some(handle) = handle {
            plan.keep(&handle.join(rt), &mut slots);
        }
    }
    Ok(plan.put_in_order(&slots, ends))
}

impl Plan {
    /// Keeps ends of this plan's sessions, each in the slot of its number.
    fn keep(self, ends: &[NumberedEnd], slots: &mut Vec<Option<SessionEnd>>)
        requires size { vec_len slots.old ≡ self.sessions }
        requires ends { All (IsEndOf self) ends.now }
        requires slots { All (IsSlotOf self) slots.old.items }
        ensures size { vec_len slots.new ≡ vec_len slots.old }
        ensures slots { All (IsSlotOf self) slots.new.items }
    {
        for numbered in ends {
            slots[numbered.number] = Some(numbered.end);
        }
    }

    /// The ends in the slots, put into an empty list that has room for them.
    fn put_in_order(self, slots: &[Option<SessionEnd>], room: Vec<SessionEnd>) -> Vec<SessionEnd>
        requires none { vec_len room ≡ 0 }
        requires room { length slots.now ≤ vec_capacity room }
        requires slots { All (IsSlotOf self) slots.now }
        ensures few { vec_len result ≤ length slots.now }
        ensures drawn { All (IsDrawnEnd self.turns) result.items }
    {
        let mut ends = room;
        for slot in slots {
            if let Some(end) = slot {
                ends.push_reserved(*end);
            }
        }
        ends
    }
}

/// Takes a share, serves the sessions that it draws, and hands the share back.
fn work_once<A: Accept + Drop, L: Ledger, C: Naming, G: Gate, R: Wait>(
    rt: &R,
    alloc: Global,
    queue: &Mutex<Queue<A>>,
    desk: &Desk<L, C>,
    root: &Mutex<Root<L, C>>,
    gate: &G,
    plan: Plan,
) -> Vec<NumberedEnd>
    ensures { All (IsEndOf plan) result.items }
{
    let mut ends = Vec::new(alloc);
    if ends.reserve(plan.sessions).is_err() {
        return ends;
    }
    let given = root.lock(rt).give();
    match given {
        Ok(mut share) => {
            serve_drawn(rt, alloc, queue, desk, &mut share, gate, plan, &mut ends);
            root.lock(rt).take_back(share);
        }
        Err(_) => {}
    }
    ends
}

/// Serves sessions as long as there are numbers to draw.
fn serve_drawn<A: Accept + Drop, L: Ledger, C: Naming, G: Gate, R: Wait>(
    rt: &R,
    alloc: Global,
    queue: &Mutex<Queue<A>>,
    desk: &Desk<L, C>,
    share: &mut Share<L, C>,
    gate: &G,
    plan: Plan,
    ends: &mut Vec<NumberedEnd>,
)
    requires room { vec_len ends.old + plan.sessions ≤ vec_capacity ends.old }
    requires ends { All (IsEndOf plan) ends.old.items }
    ensures { All (IsEndOf plan) ends.new.items }
{
    for _ in 0..plan.sessions {
        let drawn = queue.lock(rt).draw(alloc, plan.sessions);
        match drawn {
            Some(drawn) => {
                let Drawn { number, connection } = drawn;
                let end = serve_one::<A, L, C, G, R>(
                    rt, alloc, connection, desk, share, gate, plan.turns,
                );
                ends.push_reserved(NumberedEnd { number, end });
            }
            None => return,
        }
    }
}

/// Serves one session, if there is a connection for it.
fn serve_one<A: Accept, L: Ledger, C: Naming, G: Gate, R: Wait>(
    rt: &R,
    alloc: Global,
    connection: Result<(A::Reader, A::Writer), NoConnection>,
    desk: &Desk<L, C>,
    share: &mut Share<L, C>,
    gate: &G,
    turns: u64,
) -> SessionEnd
    ensures { IsDrawnEnd turns result }
{
    match connection {
        Ok((reader, writer)) => {
            let mut reader = Counted::new(reader);
            let mut writer = Counted::new(writer);
            let mut counter = DeskCounter::new(rt, desk, share, gate);
            Session::run(alloc, &mut reader, &mut writer, &mut counter, turns)
        }
        Err(NoConnection::NoMemory) => unserved_end(SessionFault::NoMemory),
        Err(NoConnection::Failed) => unserved_end(SessionFault::Accept),
    }
}

/// The end of a session that was never served.
fn unserved_end(fault: SessionFault) -> SessionEnd
    ensures { result ≡ record { fault = Some fault; asked = 0; signed_off = false } }
{
    SessionEnd {
        fault: Some(fault),
        asked: 0,
        signed_off: false,
    }
}
