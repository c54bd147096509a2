//! The laws of a history in chapters, and of its seals.

ghost use Rattle.chapters.specs.Laws.{ChaptersTellTheirHistory, CommentsSayNothing};
ghost use Rattle.chapters.specs.Laws.{SealsBindTheirTexts, TimesAreRead};

/// The texts of chapters, wherever they end, tell exactly the kept rows of their history.
pub fn chapters_tell_their_history()
    ensures { ChaptersTellTheirHistory }
{}

/// Lines are read, with times and seals among them, as the requests of those lines that aren't
/// comments.
pub fn comments_say_nothing()
    ensures { CommentsSayNothing }
{}

/// The time that is read from lines is the last time in them, and it never falls.
pub fn times_are_read()
    ensures { TimesAreRead }
{}

/// If two different histories end with the same seal, one can compute from them two different lists
/// of octets with the same SHA-256, or octets whose SHA-256 is zero.
pub fn seals_bind_their_texts()
    ensures { SealsBindTheirTexts }
{}
