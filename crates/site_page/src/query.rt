//! What queries ask for.

ghost use Rattle.std.specs.Prelude.{option_copied};
ghost use Rattle.site_page.specs.PageAnswers.{AsksFor, AsksFrom};

use forecourt_engines::number::number_behind;
use site_base::{FpNo, GREATEST_SHIFT, POINTS, ShiftNo};

/// Which transactions are asked for.
#[derive(Clone, Copy, Debug, PartialEq, Eq)]
pub(crate) enum Asked {
    /// All: there is no query.
    All,
    /// Those of this point.
    Point(FpNo),
    /// The query is none of these.
    Unknown,
}

/// Reads `point=P`, or that there is no query.
pub(crate) fn read_query(query: Option<&str>) -> Asked
    ensures { AsksFor (option_copied query.entry) result }
{
    let Some(query) = query else {
        return Asked::All;
    };
    match number_behind(b"point=", query.as_bytes(), 1, u64::from(POINTS)) {
        Some(number) => match FpNo::new(number as u8) {
            Some(p) => Asked::Point(p),
            None => unreachable!(),
        },
        None => Asked::Unknown,
    }
}

/// Reads `from=N`, the first shift that is asked for; without a query it is the first one.
pub(crate) fn read_first(query: Option<&str>) -> Option<ShiftNo>
    ensures { AsksFrom (option_copied query.entry) result }
{
    let Some(query) = query else {
        return ShiftNo::new(1);
    };
    let number = number_behind(b"from=", query.as_bytes(), 1, u64::from(GREATEST_SHIFT))?;
    ShiftNo::new(number as u16)
}
