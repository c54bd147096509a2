//! Where a chapter began, and when it is over.

ghost use Rattle.std.specs.Prelude.{◌≡◌};
ghost use Rattle.chapters.specs.ChapterBegins.{begin_of, is_over};

use site_base::ShiftNo;
use site_book::SiteBook;

/// The number of rows at which a chapter is over.
pub const CHAPTER_ROWS: u64 = 1_000_000;

/// Where a chapter began.
#[derive(Clone, Copy, Debug, PartialEq, Eq)]
pub struct ChapterBegin {
    /// The shift that was open at its beginning.
    pub shift: ShiftNo,
    /// The number of rows in the chapters before it.
    pub rows: u64,
}

impl ChapterBegin {
    /// Returns where a chapter begins whose first row is the next row of this book.
    pub fn of(book: &SiteBook) -> ChapterBegin
        ensures { result ≡ begin_of book.now }
    {
        ChapterBegin {
            shift: book.open_shift(),
            rows: book.kept_len(),
        }
    }

    /// Is the chapter over that has the last rows of this book? It is if a shift was closed in it,
    /// or if it has 1,000,000 rows.
    pub fn is_over(&self, book: &SiteBook) -> bool
        ensures { result ≡ is_over self.now book.now }
    {
        book.open_shift() != self.shift || book.kept_len().saturating_sub(self.rows) >= CHAPTER_ROWS
    }
}
