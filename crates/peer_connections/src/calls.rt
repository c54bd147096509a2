//! One call of a connection: it hears octets that a peer sent, or sends octets that the peer may
//! have.

ghost use Rattle.std.specs.Prelude.{◌≡◌, ◌<◌, ◌≤◌, IfOk, OnErr, length, true};
ghost use Rattle.station.specs.declared.sizes.TheConstants.{HEARD_OCTETS};
ghost use Rattle.station.specs.Reads.{is_read_at};
ghost use Rattle.journal.specs.Stored.{JournalGoesOn, time_of};
ghost use Rattle.peer_connections.specs.Calls.{HearsCall, HearsWithRoom, SendsCall};
ghost use Rattle.peer_connections.specs.Fed.{ReadsNew};
ghost use Rattle.peer_connections.specs.Sending.{HasSeen, KeepsChanges};

use crate::change_watch::ChangeWatch;
use crate::row_room::make_room;
use crate::session_over::SessionOver;
use connection_calls::Call;
use journal::{Disk, DiskFault, StoredStation};
use std::io::{Read, Write};

/// Reads once from the connection of a peer that is read from. The station hears what came: octets,
/// or that no more come, or that no more can come. If nothing came, the station stays as it is.
pub fn read_once<R: Read, D: Disk>(
    reader: &mut R,
    stored: &mut StoredStation<D>,
    key: usize,
    piece: &mut [u8],
) -> Call
    requires some { 0 < length piece.old }
    requires few { length piece.old ≤ HEARD_OCTETS }
    requires read { is_read_at stored.old.station key ≡ true }
    ensures station { HearsCall result key (R.remaining reader.old) (R.remaining reader.new)
        stored.old.station stored.new.station }
    ensures journal { stored.new.journal ≡ stored.old.journal }
{
    match reader.read(piece) {
        Ok(0) => {
            stored.finish(key);
            Call::Ended
        }
        Ok(n) => {
            stored.hear(key, &piece[..n]);
            Call::Passed(n)
        }
        Err(error) => {
            let call = Call::of_error(&error);
            if call == Call::Failed {
                stored.finish(key);
            }
            call
        }
    }
}

/// Makes room in the book for the rows of one read, and reads once. The rows so far are looked at
/// before they are forgotten. Where no room can be made, nothing is read.
#[tactic(auto, using(crate::proofs::Seeing::seen))]
pub(crate) fn read_with_room<R: Read, D: Disk>(
    reader: &mut R,
    stored: &mut StoredStation<D>,
    changes: &mut ChangeWatch,
    key: usize,
    piece: &mut [u8],
) -> Result<Call, DiskFault>
    requires some { 0 < length piece.old }
    requires few { length piece.old ≤ HEARD_OCTETS }
    requires read { is_read_at stored.old.station key ≡ true }
    requires seen { HasSeen changes.old.rows_seen stored.old.station.book }
    requires fed { HasSeen changes.old.rows_fed stored.old.station.book }
    ensures hears { IfOk result (λ call. HearsWithRoom call key (R.remaining reader.old)
        (R.remaining reader.new) stored.old.station stored.new.station) }
    ensures err { OnErr result (stored.new.station ≡ stored.old.station) }
    ensures unread { OnErr result (reader.new ≡ reader.old) }
    ensures journal { JournalGoesOn stored.old.journal stored.new.journal }
    ensures seen { HasSeen changes.new.rows_seen stored.new.station.book }
    ensures fed { HasSeen changes.new.rows_fed stored.new.station.book }
    ensures noted { KeepsChanges changes.old changes.new stored.new.station.book }
    ensures told { ReadsNew (time_of stored.new.journal) stored.old.station.book changes.old
        changes.new }
{
    make_room(stored, changes)?;
    Ok(read_once(reader, stored, key, piece))
}

/// Reads once from a connection, whose session is over, what nobody hears.
pub(crate) fn read_ignored<R: Read>(reader: &mut R, piece: &mut [u8], _over: SessionOver) -> Call {
    match reader.read(piece) {
        Ok(0) => Call::Ended,
        Ok(n) => Call::Passed(n),
        Err(error) => Call::of_error(&error),
    }
}

/// Writes a peer's pending output to its connection, once, if each row is stored. What the
/// connection took is no longer pending. If it took nothing, the station stays as it is.
pub fn write_once<W: Write, D: Disk>(
    writer: &mut W,
    stored: &mut StoredStation<D>,
    key: usize,
) -> Call
    ensures { SendsCall result key (W.contents writer.old) (W.contents writer.new) stored.old
        stored.new }
{
    match writer.write(stored.told_octets(key)) {
        Ok(0) => Call::Failed,
        Ok(n) => {
            stored.take(key, n);
            Call::Passed(n)
        }
        Err(error) => Call::of_error(&error),
    }
}
