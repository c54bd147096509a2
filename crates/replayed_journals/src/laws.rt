//! The law of a replayed chapter.

ghost use Rattle.replayed_journals.specs.Laws.{JournalsAreReplayed};

/// A replay of the first chapter's text makes that history too, up to the row that fills the book.
pub fn journals_are_replayed()
    ensures { JournalsAreReplayed }
{}
