//! What is counted of a history while its rows are read.

ghost use Rattle.std.specs.Prelude.{◌≡◌, None};
ghost use Rattle.row_commands.specs.RowCounts.{uncovered_by, with_row};

use chapters::HistoryEnd;
use stamps::Stamp;

/// What is counted of a history while its rows are read.
#[derive(Clone, Copy, Debug, PartialEq, Eq)]
pub struct RowCount {
    /// The number of rows that were read.
    pub rows: u64,
    /// The number of rows after the last seal that precedes the last row.
    pub unsealed: u64,
    /// The number of seals that precede the last row.
    pub seals: u64,
    /// The time of the first row.
    pub first: Option<Stamp>,
    /// The time of the last row.
    pub last: Option<Stamp>,
}

impl RowCount {
    /// Returns the count before the first row.
    pub fn new() -> RowCount
        ensures { result ≡ record {
          rows = 0;
          unsealed = 0;
          seals = 0;
          first = None;
          last = None;
        } }
    {
        RowCount {
            rows: 0,
            unsealed: 0,
            seals: 0,
            first: None,
            last: None,
        }
    }

    /// Counts a row. `end` says where the text that is read ends right after that row.
    pub fn add_row(&mut self, end: &HistoryEnd)
        ensures { self.new ≡ with_row self.old end.now }
    {
        if self.rows == 0 {
            self.first = end.time();
        }
        if self.seals != end.seals() {
            self.seals = end.seals();
            self.unsealed = 0;
        }
        self.rows = self.rows.saturating_add(1);
        self.unsealed = self.unsealed.saturating_add(1);
        self.last = end.time();
    }

    /// Returns the number of rows that no seal covers, in a history that ends at `end`.
    pub fn uncovered(&self, end: &HistoryEnd) -> u64
        ensures { result ≡ uncovered_by self.now end.now }
    {
        if self.seals == end.seals() {
            self.unsealed
        } else {
            0
        }
    }
}
