//! What a station prints about its history at a start.

use day_base::DayFault;
use devices::WriteFault;

/// What a start has found of its history.
#[derive(Clone, Copy, Debug, PartialEq, Eq)]
pub enum FoundHistory {
    /// There is no folder: nothing is kept.
    NoFolder,
    /// There were no chapters.
    New,
    /// The number of chapters, and of their rows.
    Chapters(u64, u64),
}

/// Prints what was found: of a history on standard output; that nothing is kept on standard error.
pub fn print_found<R: Print + Eprint>(rt: &R, found: FoundHistory) -> Result<(), DayFault> {
    let printed = match found {
        FoundHistory::NoFolder => {
            let _ = eprintln!(rt;
                "nothing is kept\nwithout --history FOLDER a crash or a power cut loses the day"
            );
            Ok(())
        }
        FoundHistory::New => println!(rt; "history new"),
        FoundHistory::Chapters(chapters, rows) => {
            println!(rt; "history chapters {chapters} rows {rows}")
        }
    };
    match printed {
        Ok(()) => Ok(()),
        Err(_) => Err(DayFault::Write(WriteFault::Failed)),
    }
}
