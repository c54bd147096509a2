//! A demo, from its setup to its report.

ghost use Rattle.std.specs.Prelude.{◌≡◌, ◌^◌, IfOk, OnOk};
ghost use Rattle.std.specs.Io.KnownBytes.{Appends};
ghost use Rattle.std.specs.Result.{IsErrOf};
ghost use Rattle.devices.specs.Counted.{device_of, failures_of};
ghost use Rattle.devices.specs.Devices.{one_more};
ghost use Rattle.day_report.specs.Text.{report_text};
ghost use Rattle.desk_days.specs.Demos.{IsSettledDemo, TellsReportFront};

use crate::demo_fault::DemoFault;
use crate::over_loopback::run_over_loopback;
use crate::over_memory::run_over_memory;
use crate::server::PARTS;
use counter_desk::{Desk, ListEnd, Naming, OpenGate, Root, Settled, settle_all, work};
use day_base::{DayFault, put_report};
use demo::DemoScript;
use devices::{Counted, WriteFault};
use site_base::SiteConfig;
use std::alloc::Global;
use std::io::Write;
use std::marker::Brand;
use std::net::{Net, TcpListener, TcpStream};
use std::sync::ledger::{Blank, Ledger};
use std::sync::{Mutex, Wait};
use std::thread::Threads;

/// How a demo is run: with its tills' sessions in memory or over sockets, and with how many turns
/// for each session.
#[derive(Clone, Copy, Debug, PartialEq, Eq)]
pub struct DemoPlan {
    /// Do the tills' sessions run over sockets?
    pub loopback: bool,
    /// The most read calls and interrupted write calls of a session.
    pub turns: u64,
}

/// How a demo ended.
#[derive(Drop)]
pub struct DemoEnd {
    /// How the calls of its setup ended.
    pub setup: ListEnd,
    /// What was settled.
    pub settled: Settled,
}

/// Runs the demo of a script on the site of this configuration, and writes the report of what was
/// settled. Returns how it ended. The interrupted calls of the report's write take `turns`. However
/// it ends, what it wrote is a prefix of that report. `Write` if the writer failed in the call, or
/// was interrupted until no turn was left.
pub fn demo_day<
    W: Write,
    N: Net<Listener = TcpListener, Stream = TcpStream>,
    R: Threads + Wait + Sync,
>(
    net: &N,
    rt: &R,
    alloc: Global,
    config: &SiteConfig,
    script: &DemoScript,
    plan: DemoPlan,
    turns: &mut u64,
    writer: &mut Counted<W>,
) -> Result<DemoEnd, DayFault>
    ensures settled { IfOk result (λ end. IsSettledDemo config.now script.now.setup end) }
    ensures told { IfOk result (λ end. Appends
        (W.contents (device_of writer.old)) (W.contents (device_of writer.new))
        (report_text config.now end.settled.book end.settled.shares)) }
    ensures front { TellsReportFront config.now script.now.setup
        (W.contents (device_of writer.old)) (W.contents (device_of writer.new)) }

    // What its write does to the writer's count, and to the turns.
    ensures counted { OnOk result (failures_of writer.new ≡ failures_of writer.old) }
    ensures failed { IsErrOf result (DayFault.Write WriteFault.Failed)
        → failures_of writer.new ≡ one_more (failures_of writer.old) }
    ensures limit { IsErrOf result (DayFault.Write WriteFault.TurnLimit) → turns.new ≡ 0 }
{
    let end = demo(net, rt, alloc, config, script, plan)?;
    put_report(alloc, config, &end.settled, writer, turns)?;
    Ok(end)
}

/// Runs the demo of a script on the site of this configuration. One worker makes the calls of the
/// setup, and signs off the tills to which it owes that. Then the sections are worked through in
/// parallel, each by a worker with its own share. (Over sockets a till's section has a client, and
/// the tills' sessions are drawn by a server's workers, at most 16, each with a share.) Last, the
/// desk is settled. A fault that ends one worker's work early doesn't end the demo. `NoWorker` if a
/// worker couldn't be started, and `NoConnection` if there was no socket.
///
/// What is settled ends with the receipts of the setup's worker, which made the setup's calls, all
/// of them if its end has no fault. Of the sections' receipts a contract can only say that they add
/// up with these: their shares come back through the root's lock, of which only its type is known.
/// `work_through` says what each worker does through its share (`IsWorkedAt`).
pub fn demo<N: Net<Listener = TcpListener, Stream = TcpStream>, R: Threads + Wait + Sync>(
    net: &N,
    rt: &R,
    alloc: Global,
    config: &SiteConfig,
    script: &DemoScript,
    plan: DemoPlan,
) -> Result<DemoEnd, DemoFault>
    ensures settled { IfOk result (λ end. IsSettledDemo config.now script.now.setup end) }
{
    let blank = Blank::new(PARTS);
    day_of::<Brand, Brand, N, R>(net, rt, alloc, blank, config, script, plan)
}

/// The same, with names for the ledger of calls and for the configuration.
fn day_of<
    L: Ledger + Send + Sync,
    C: Naming + Send + Sync,
    N: Net<Listener = TcpListener, Stream = TcpStream>,
    R: Threads + Wait + Sync,
>(
    net: &N,
    rt: &R,
    alloc: Global,
    blank: Blank,
    config: &SiteConfig,
    script: &DemoScript,
    plan: DemoPlan,
) -> Result<DemoEnd, DemoFault>
    requires ledger { (blank.name ≡ L.name) × (blank.parts ≡ L.parts) × (blank.parts ≡ 2 ^ 63) }
    requires config { config.now ≡ C.config }
    ensures settled { IfOk result (λ end. IsSettledDemo config.now script.now.setup end) }
{
    let (desk, mut root) = Desk::<L, C>::try_open(alloc, blank, config)?;
    let mut share = root.give()?;
    let setup = work(rt, &desk, &mut share, &OpenGate, script.setup());
    let root = Mutex::new(root);
    let worked = run_sections(net, rt, alloc, config, &desk, &root, script, plan);
    let mut root = root.into_inner();
    root.take_back(share);
    worked?;
    let settled = settle_all(rt, alloc, desk, root)?;
    Ok(DemoEnd { setup, settled })
}

/// Works at the sections side by side, each through a share of its own.
fn run_sections<
    L: Ledger + Send + Sync,
    C: Naming + Send + Sync,
    N: Net<Listener = TcpListener, Stream = TcpStream>,
    R: Threads + Wait + Sync,
>(
    net: &N,
    rt: &R,
    alloc: Global,
    config: &SiteConfig,
    desk: &Desk<L, C>,
    root: &Mutex<Root<L, C>>,
    script: &DemoScript,
    plan: DemoPlan,
) -> Result<(), DemoFault> {
    let (sections, turns) = (script.sections(), plan.turns);
    if plan.loopback {
        run_over_loopback(net, rt, alloc, config, desk, root, sections, turns)
    } else {
        run_over_memory(rt, alloc, config, desk, root, sections, turns)
    }
}
