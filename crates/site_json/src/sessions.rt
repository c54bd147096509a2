//! The sessions of a station's peers as JSON.

ghost use Rattle.std.specs.Prelude.{◌≡◌, map, IfOk};
ghost use Rattle.serde_json.specs.View.{view};
ghost use Rattle.site_json.specs.Sessions.{is_connected, is_dispenser, session_data, sessions_data};

use crate::figures::time_if;
use device_map::dispenser;
use serde_json::{Value, json};
use site_base::{FpNo, NoMemory};
use stamps::Stamp;
use std::alloc::{AllocError, Global};

/// A session of a peer whose node is known.
#[derive(Clone, Copy, Debug)]
pub struct PeerSession {
    /// Its subnet and its node.
    pub node: [u8; 2],
    /// When the peer came, if the time was known.
    pub since: Option<Stamp>,
    /// The whole seconds since something came from it.
    pub quiet_seconds: u64,
}

/// Returns these sessions, in their order.
pub fn session_values(alloc: Global, sessions: &[PeerSession]) -> Result<Vec<Value>, NoMemory>
    ensures { IfOk result (λ values. map view values.items ≡ sessions_data sessions.now) }
{
    let mut values = Vec::new(alloc);
    for session in sessions {
        values.push(session_value(alloc, session)?)?;
    }
    Ok(values)
}

/// A session.
fn session_value(alloc: Global, session: &PeerSession) -> Result<Value, AllocError>
    ensures { IfOk result (λ value. view value ≡ session_data session.now) }
{
    let since = time_if(alloc, &session.since)?;
    json!(in alloc; {
        "node": session.node[1],
        "quiet seconds": session.quiet_seconds,
        "since": since,
        "subnet": session.node[0]
    })
}

/// Does one of these sessions belong to the dispenser of this point?
pub fn is_connected(sessions: &[PeerSession], p: FpNo) -> bool
    ensures { result ≡ is_connected sessions.now p }
{
    sessions.iter().any(|session| is_dispenser(session, p))
}

/// Is it a session of the dispenser of a point?
fn is_dispenser(session: &PeerSession, p: FpNo) -> bool
    ensures { result ≡ is_dispenser p session.now }
{
    let node = dispenser(p);
    session.node[0] == node[0] && session.node[1] == node[1]
}
