//! What a line of a chapter is read as.

ghost use Rattle.std.specs.Prelude.{◌≡◌, None};
ghost use Rattle.chapters.specs.ChapterReading.{is_comment};
ghost use Rattle.chapters.specs.Readers.{is_right, row_read};

use site_base::Row;

/// What a line of a chapter is read as.
#[derive(Clone, Copy, Debug, PartialEq, Eq)]
pub(crate) enum LineRead {
    /// A wrong line.
    Wrong,
    /// A seal or a comment.
    NoRow,
    /// A request, which made this row.
    Row(Row),
}

impl LineRead {
    /// What the line of a seal is read as: the next seal, or another one.
    pub(crate) fn of_seal(is_next: bool) -> LineRead
        ensures right { is_right result ≡ is_next }
        ensures row { row_read result ≡ None }
    {
        if is_next {
            LineRead::NoRow
        } else {
            LineRead::Wrong
        }
    }
}

/// Is the line a comment?
pub(crate) fn is_comment(line: &[u8]) -> bool
    ensures { result ≡ is_comment line.now }
{
    line.starts_with(b"#")
}
