//! Room for rows in the station's book.

ghost use Rattle.std.specs.Prelude.{◌≡◌, OnErr, OnOk};
ghost use Rattle.journal.specs.Memory.{HasRoomToHear, IsSameOrForgets};
ghost use Rattle.journal.specs.Stored.{JournalGoesOn, time_of};
ghost use Rattle.peer_connections.specs.Fed.{ReadsNew};
ghost use Rattle.peer_connections.specs.Sending.{HasSeen, KeepsChanges};

use crate::change_watch::ChangeWatch;
use journal::{Disk, DiskFault, StoredStation};

/// Makes room in the book for the rows of one read: where there may be none, each row is stored,
/// the feed reads those that are new, and all are forgotten. The rows so far are looked at before.
/// The site goes on, and so does what is unpaid. Where storing fails, or memory is wanting, nothing
/// is forgotten.
#[tactic(auto, using(crate::proofs::Seeing::seen))]
pub(crate) fn make_room<D: Disk>(
    stored: &mut StoredStation<D>,
    changes: &mut ChangeWatch,
) -> Result<(), DiskFault>
    requires seen { HasSeen changes.old.rows_seen stored.old.station.book }
    requires fed { HasSeen changes.old.rows_fed stored.old.station.book }
    ensures moves { IsSameOrForgets stored.old.station stored.new.station }
    ensures journal { JournalGoesOn stored.old.journal stored.new.journal }
    ensures room { OnOk result (HasRoomToHear stored.new.station.book) }
    ensures err { OnErr result (stored.new.station ≡ stored.old.station) }
    ensures seen { HasSeen changes.new.rows_seen stored.new.station.book }
    ensures fed { HasSeen changes.new.rows_fed stored.new.station.book }
    ensures noted { KeepsChanges changes.old changes.new stored.new.station.book }
    ensures told { ReadsNew (time_of stored.new.journal) stored.old.station.book changes.old
        changes.new }
{
    changes.look(stored.book());
    if !stored.is_crowded() {
        return Ok(());
    }
    stored.store()?;
    changes.read_stored(stored);
    stored.forget_rows()?;
    Ok(())
}
