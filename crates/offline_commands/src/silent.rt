//! Replays whose answers aren't printed.

ghost use Rattle.std.specs.Prelude.{◌≡◌, IfSome, false, not};
ghost use Rattle.forecourt_engines.specs.Replay.{is_early};

use devices::Counted;
use forecourt_engines::ReplayFault;
use forecourt_engines::replay::{ReplayEnd, replay};
use program_io::TURNS;
use site_base::SiteConfig;
use std::alloc::Global;
use std::io;
use std::io::Read;

/// Replays this input on this site, and doesn't print its answers.
pub fn replay_silently<I: Read + Drop>(
    alloc: Global,
    input: &mut Counted<I>,
    config: &SiteConfig,
) -> ReplayEnd
    ensures whole { is_early result.fault ≡ false
        → IfSome result.book (λ b. b.forgotten ≡ 0) }
{
    let mut sink = Counted::new(io::sink());
    replay(alloc, config, input, &mut sink, TURNS, false)
}

/// Did the replay reach the end of the input, or a fault of its text? After any other fault nothing
/// is reported.
pub fn ends_its_text(fault: &Option<ReplayFault>) -> bool
    ensures { result ≡ not (is_early fault.now) }
{
    matches!(fault, None | Some(ReplayFault::Text(_)))
}
