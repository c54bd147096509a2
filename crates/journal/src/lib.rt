//! The journal of a station: what peers were sent is stored.
//!
//! A journal is in the chapters of a history (crate `chapters`). A `StoredStation` is a station
//! with its journal. It hands out a peer's pending output only while each row is stored, so that no
//! octet tells of a row that a crash could lose (`specs/Stored.antt`). `open_journal` restores the
//! station from chapters that a crash may have left (`specs/Opening.antt`, `Faults.antt`).
//!
//! A `Disk` is what holds the chapters: `specs/Disks.antt` says what its calls do to them, at each
//! moment. The laws (`specs/Laws.antt`) say what is found again.
#![tactic(auto)]

mod disk;
mod journal;
mod laws;
mod memory;
mod opening;
mod recovery;
mod stored_station;

pub use disk::{Disk, DiskFault};
pub use journal::{ChapterEnd, Journal, RETRY_ROWS};
pub use laws::{
    beginnings_are_read, calls_are_steps, histories_are_made_again, stamps_rise,
    stations_rows_are_sent, stations_rows_can_be_spelled, stored_rows_are_found_again,
    told_rows_are_found_again, told_rows_stay,
};
pub use memory::LEAST_ROWS;
pub use opening::{Opened, Unopened, open_journal, resume};
pub use recovery::{OpenFault, recover};
pub use stored_station::StoredStation;
