//! The folder of a running station's history, on the disk of this machine.
//!
//! `HistoryFolder::lock` makes the folder if it isn't there, and locks it for one process alone. It
//! returns the folder's site file, and keeps one at a first start. As a `Disk` it reads the
//! folder's chapters. The open chapter grows at its end, is flushed, and is renewed: a copy
//! replaces it by a rename, with its owner and its permissions. The next chapter begins as such a
//! copy too.
//!
//! No contract can say what a file carries. What is proved here is what the process keeps of the
//! folder (`specs/Counts.antt`), and which fault comes when.
#![tactic(auto)]

mod copies;
mod disk;
mod fault;
mod files;
mod folder;
mod history_disk;
mod identity;
mod lock;
mod locked;
mod streams;

pub use fault::FileFault;
pub use history_disk::HistoryDisk;
pub use locked::HistoryFolder;
