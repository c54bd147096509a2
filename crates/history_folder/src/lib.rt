//! Reads a history's folder: its site file, and its chapters in order. It can do so at any time,
//! even while a station writes them, and neither locks nor changes anything.
//!
//! `count_chapters` says how many chapters there are, or which one is missing first
//! (`specs/Numbers.antt`). `chapter_name` and `chapter_number` are the two ways between a chapter
//! and the name of its file (`specs/Names.antt`). `read_folder` restores the rows. A `FolderWalk`
//! gives them one after another, and finds where a seal is (`specs/SealPlaces.antt`).
#![tactic(auto)]

mod exit;
mod fault;
mod listing;
mod names;
mod numbers;
mod place;
mod reading;
mod seal_search;
mod site;
mod walk;
mod whole_file;

pub use exit::{exit_folder, exit_history};
pub use fault::FolderFault;
pub use listing::count_chapters;
pub use names::{SITE_FILE, chapter_name, chapter_number, path_in};
pub use reading::read_folder;
pub use seal_search::LinePlace;
pub use site::{read_folder_site, site_in_folder};
pub use walk::FolderWalk;
