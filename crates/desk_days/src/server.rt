//! A day of a server.

ghost use Rattle.std.specs.Prelude.{◌≡◌, ◌^◌};
ghost use Rattle.devices.specs.Counted.{device_of, failures_of};
ghost use Rattle.desk_days.specs.Days.{ServesDay};

use crate::listener::Loopback;
use counter_desk::{Desk, Naming, OpenGate, Settled, settle_all};
use day_base::{DayFault, ServerPlan, put_listening, put_report};
use devices::Counted;
use site_base::SiteConfig;
use std::alloc::Global;
use std::io::Write;
use std::marker::Brand;
use std::sync::ledger::{Blank, Ledger};
use std::sync::{Mutex, Wait};
use std::thread::Threads;
use till_session::serve;

/// How many shares a desk of a day may give.
pub const PARTS: u64 = 1 << 63;

/// Runs the day of a server on the site of this configuration, which listens already. It writes
/// where it listens, serves as many sessions as the plan says, each with this many turns, settles,
/// and writes the report of what was settled. Returns what was settled. Its own writes take their
/// turns from `turns`. However it ends, what it wrote is a prefix of that text. `Write` if the
/// writer failed in the call, or was interrupted until no turn was left. It listens before the desk
/// opens, and says where afterwards, so it never names a port that isn't served.
pub fn serve_day<W: Write, R: Threads + Wait + Sync>(
    rt: &R,
    alloc: Global,
    config: &SiteConfig,
    listener: Loopback,
    plan: ServerPlan,
    turns: &mut u64,
    writer: &mut Counted<W>,
) -> Result<Settled, DayFault>
    ensures { ServesDay config.now listener.port result
        (W.contents (device_of writer.old)) (W.contents (device_of writer.new))
        (failures_of writer.old) (failures_of writer.new) turns.new }
{
    let blank = Blank::new(PARTS);
    day_of::<Brand, Brand, W, R>(rt, alloc, blank, config, listener, plan, turns, writer)
}

/// The same, with names for the ledger of calls and for the configuration.
fn day_of<L: Ledger + Send + Sync, C: Naming + Send + Sync, W: Write, R: Threads + Wait + Sync>(
    rt: &R,
    alloc: Global,
    blank: Blank,
    config: &SiteConfig,
    listener: Loopback,
    plan: ServerPlan,
    turns: &mut u64,
    writer: &mut Counted<W>,
) -> Result<Settled, DayFault>
    requires ledger { (blank.name ≡ L.name) × (blank.parts ≡ L.parts) × (blank.parts ≡ 2 ^ 63) }
    requires config { config.now ≡ C.config }
    ensures { ServesDay config.now listener.port result
        (W.contents (device_of writer.old)) (W.contents (device_of writer.new))
        (failures_of writer.old) (failures_of writer.new) turns.new }
{
    let (desk, root) = Desk::<L, C>::try_open(alloc, blank, config)?;
    put_listening(alloc, listener.port(), writer, turns)?;
    let root = Mutex::new(root);
    let ServerPlan {
        workers,
        sessions,
        ..
    } = plan;
    let gate = OpenGate;
    serve(
        rt, alloc, listener, &desk, &root, &gate, workers, sessions, *turns,
    )?;
    let settled = settle_all(rt, alloc, desk, root.into_inner())?;
    put_report(alloc, config, &settled, writer, turns)?;
    Ok(settled)
}
