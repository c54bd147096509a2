//! A disk in memory, for tests: what it carries is known, and it can be cut at each of its calls.
//!
//! A `MemoryDisk` is a `Disk` with a known file: each clause of the trait is proved for what it
//! holds. It keeps what a crash would have left at each call that changes it. At the call at which
//! it is cut it fails with a part of the work done, and from then on it takes no call. Then
//! `after_crash` returns it as a start finds it. A `LentDisk` is such a disk that a station only
//! borrows.
#![tactic(auto)]

mod contents;
mod cut;
mod left;
mod lent_disk;
mod memory_disk;

pub use cut::Cut;
pub use lent_disk::LentDisk;
pub use memory_disk::MemoryDisk;
