//! The laws of a journal. Each is a function whose contract is the law.

ghost use Rattle.journal.specs.Laws.{BeginningsAreRead, HistoriesAreMadeAgain};
ghost use Rattle.journal.specs.Laws.{ToldRowsStay, StampsRise, StationsRowsAreSent};
ghost use Rattle.journal.specs.Laws.{StationsRowsCanBeSpelled};
ghost use Rattle.journal.specs.Laws.{StoredRowsAreFoundAgain, ToldRowsAreFoundAgain};
ghost use Rattle.journal.specs.Lives.{CallsAreSteps};

/// If a book is read from chapters that continue what is on the disk, it begins with the rows
/// stored there.
pub fn stored_rows_are_found_again()
    ensures { StoredRowsAreFoundAgain }
{}

/// Once each row of the station is stored, each except those of reads will be found again after any
/// list of stores, ends of chapters, crashes and starts.
pub fn told_rows_are_found_again()
    ensures { ToldRowsAreFoundAgain }
{}

/// Once each row is stored, those except reads stay the first that the station's book keeps, after
/// any moves, stores, crashes and starts.
pub fn told_rows_stay()
    ensures { ToldRowsStay }
{}

/// Each store, each end of a chapter and each start is a step of a history's life, whole or cut off
/// by a crash.
pub fn calls_are_steps()
    ensures { CallsAreSteps }
{}

/// The times that a store writes rise from the last time in the chapters, whatever was in them when
/// the history was opened.
pub fn stamps_rise()
    ensures { StampsRise }
{}

/// Chapters with rows, followed by a beginning of the lines of more rows, are never refused.
pub fn beginnings_are_read()
    ensures { BeginningsAreRead }
{}

/// A legal history can be restored from its requests.
pub fn histories_are_made_again()
    ensures { HistoriesAreMadeAgain }
{}

/// Each row of a station is one that its actor sends.
pub fn stations_rows_are_sent()
    ensures { StationsRowsAreSent }
{}

/// Each row of a station can be spelled.
pub fn stations_rows_can_be_spelled()
    ensures { StationsRowsCanBeSpelled }
{}
