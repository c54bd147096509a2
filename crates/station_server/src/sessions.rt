//! The sessions that the page lists, and what the page counts.

ghost use Rattle.std.specs.Prelude.{◌≡◌};

use crate::round_clock::RoundClock;
use feed_connections::Feeds;
use journal::Disk;
use peer_connections::{Connections, PeerStream};
use site_base::NoMemory;
use site_json::PeerSession;
use site_metrics::{StationCounts, StoreTimes};
use station::PEERS;
use std::alloc::Global;
use std::time::Instant;

/// The sessions of the peers whose nodes are known, in the order of their keys.
pub(crate) fn list_sessions<D: Disk>(
    alloc: Global,
    connections: &Connections<D, PeerStream>,
    now: Instant,
) -> Result<Vec<PeerSession>, NoMemory> {
    let mut sessions = Vec::new(alloc);
    for key in 0..PEERS {
        if let Some(session) = connections.session(key) {
            let node = session.node;
            let since = session.since;
            let quiet_seconds = now.duration_since(session.heard_at).as_secs();
            sessions.push(PeerSession {
                node,
                since,
                quiet_seconds,
            })?;
        }
    }
    Ok(sessions)
}

/// What a station counts: its connections, the peers of its feed, its chapters, how long ago a
/// round ended with a seal, and how long rows took to be stored.
pub(crate) fn count_all<D: Disk>(
    connections: &Connections<D, PeerStream>,
    feeds: &Option<Feeds>,
    rounds: &RoundClock,
    stores: StoreTimes,
) -> StationCounts
    ensures stores { result.stores ≡ stores }
{
    let closed = connections.closed_chapters();
    let sealed = connections.sealed_at();
    StationCounts {
        connections: connections.count(),
        feeds: feeds.as_ref().map_or(0, |feeds| feeds.count()),
        chapters: closed.map(|closed| closed.saturating_add(1)),
        seal_seconds: sealed.map(|at| rounds.now().duration_since(at).as_secs()),
        stores,
    }
}
