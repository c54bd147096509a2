//! Proof that a session is over, and that its peer was sent everything. Closing a connection needs
//! it.

ghost use Rattle.std.specs.Prelude.{◌≡◌, [], false};
ghost use Rattle.station.specs.Reads.{owed_at};
ghost use Rattle.peer_connections.specs.Allowed.{lasts_at};

use journal::{Disk, StoredStation};

/// The session of a peer is over. What its connection still brings may be read, but isn't heard.
#[derive(Clone, Copy, Debug)]
pub struct SessionOver(());

impl SessionOver {
    /// That of this key's peer.
    pub(crate) fn of<D: Disk>(stored: &StoredStation<D>, key: usize) -> SessionOver
        requires over { lasts_at stored.now.station key ≡ false }
    {
        // How it ended makes no difference.
        let _ = stored.end(key);
        SessionOver(())
    }
}

/// The session of a peer is over, and its output was all sent. The peer may be told that nothing
/// more will come.
#[derive(Clone, Copy, Debug)]
pub struct AllSent(());

impl AllSent {
    /// To this key's peer.
    pub(crate) fn of<D: Disk>(stored: &StoredStation<D>, key: usize) -> AllSent
        requires over { lasts_at stored.now.station key ≡ false }
        requires sent { owed_at stored.now.station key ≡ [] }
    {
        // How it ended makes no difference.
        let _ = stored.end(key);
        AllSent(())
    }
}
