//! Rows of which others are sent something: dispensers, and the feed's peers.

ghost use Rattle.std.specs.Prelude.{◌≡◌, ◌≤◌, ◌||◌, IfSome, false, length, slice_get};
ghost use Rattle.std.specs.Prelude.{None, Some, option_copied, true};
ghost use Rattle.chapters.specs.RowText.{kept_behind};
ghost use Rattle.site_book.specs.Changes.{is_changing};
ghost use Rattle.journal.specs.Stored.{is_all_stored, time_of};
ghost use Rattle.peer_connections.specs.Fed.{AreRead, BeginsChapter};
ghost use Rattle.peer_connections.specs.Sending.{HasChange, HasSeen};
ghost use Rattle.peer_connections.specs.Tallied.{AreTallied};

use crate::fed_rows::FedRows;
use crate::feed::Feed;
use crate::tallied_rows::tally_stored;
use journal::{Disk, StoredStation};
use row_tally::RowTally;
use site_base::{Event, FpNo, PointSet, Row};
use site_book::{SiteBook, is_changing};

/// Watches a book for rows of which a dispenser may get a notice, and for rows that the feed sends.
/// It has to look at rows before the book forgets them. The feed reads rows once they are stored.
#[derive(Drop)]
pub struct ChangeWatch {
    /// So many rows were looked at.
    rows_seen: u64,
    /// One of them is such a row, since this was asked last.
    has_changes: bool,
    /// Releases are looked for, too.
    watches_releases: bool,
    /// The points that were released since this was asked last.
    released: PointSet,
    /// So many rows were stored, and read by the feed, if there is one.
    rows_fed: u64,
    /// What the feed's peers are told, if there is a feed.
    fed: Feed,
    /// What rows tell that their site doesn't, if that is wanted.
    tally: Option<RowTally>,
}

impl ChangeWatch {
    /// Watches the rows after those that the book has; for releases too, if `watches_releases`.
    pub fn new(book: &SiteBook, watches_releases: bool) -> ChangeWatch
        ensures seen { HasSeen result.rows_seen book.now }
        ensures fed { HasSeen result.rows_fed book.now }
        ensures all { result.rows_fed ≡ length book.now.rows }
        ensures unfed { result.fed ≡ None }
        ensures untallied { result.tally ≡ None }
    {
        ChangeWatch {
            rows_seen: book.len(),
            has_changes: false,
            watches_releases,
            released: PointSet::new(),
            rows_fed: book.len(),
            fed: Feed::none(),
            tally: None,
        }
    }

    /// Begins a feed. Its peers are sent these rows, and those that are stored from now on.
    pub fn begin_feed(&mut self, fed: FedRows)
        ensures fed { self.new.fed ≡ Some fed }
        ensures tally { self.new.tally ≡ self.old.tally }
        ensures seen { self.new.rows_seen ≡ self.old.rows_seen }
        ensures read { self.new.rows_fed ≡ self.old.rows_fed }
        ensures changes { self.new.has_changes ≡ self.old.has_changes }
    {
        self.fed = Feed::of(fed);
    }

    /// Returns the rows that the feed's peers are sent, if there is a feed.
    pub fn fed(&self) -> Option<&FedRows>
        ensures { option_copied result ≡ self.now.fed }
    {
        self.fed.rows()
    }

    /// Begins a tally of these rows, and of those that are stored from now on.
    pub fn begin_tally(&mut self, tally: RowTally)
        ensures tally { self.new.tally ≡ Some tally }
        ensures fed { self.new.fed ≡ self.old.fed }
        ensures seen { self.new.rows_seen ≡ self.old.rows_seen }
        ensures read { self.new.rows_fed ≡ self.old.rows_fed }
        ensures changes { self.new.has_changes ≡ self.old.has_changes }
    {
        self.tally = Some(tally);
    }

    /// Returns the tally of the stored rows, if there is one.
    pub fn tally(&self) -> Option<&RowTally>
        ensures { option_copied result ≡ self.now.tally }
    {
        self.tally.as_ref()
    }

    /// Lets the feed and the tally, if there are any, read the newly stored rows, with the last
    /// time of the history. Each row has to be stored, and none may be forgotten before it is read.
    /// If memory runs out, the feed and the tally end.
    pub fn read_stored<D: Disk>(&mut self, stored: &StoredStation<D>)
        requires stored { is_all_stored stored.now ≡ true }
        requires fed { HasSeen self.old.rows_fed stored.now.station.book }
        ensures fed { AreRead (time_of stored.now.journal)
            (kept_behind self.old.rows_fed stored.now.station.book.rows) self.old.fed
            self.new.fed }
        ensures tally { AreTallied (time_of stored.now.journal)
            (kept_behind self.old.rows_fed stored.now.station.book.rows) self.old.tally
            self.new.tally }
        ensures all { self.new.rows_fed ≡ length stored.now.station.book.rows }
        ensures seen { self.new.rows_seen ≡ self.old.rows_seen }
        ensures changes { self.new.has_changes ≡ self.old.has_changes }
    {
        let first = self.rows_fed;
        self.rows_fed = stored.book().len();
        tally_stored(&mut self.tally, stored.book(), first, &stored.last_time());
        self.fed.read(stored.book(), first, &stored.last_time());
    }

    /// Notes that the history's next chapter begins after the rows that were read. If memory runs
    /// out, the feed ends.
    pub fn begin_chapter(&mut self)
        ensures fed { BeginsChapter self.old.fed self.new.fed }
        ensures tally { self.new.tally ≡ self.old.tally }
        ensures seen { self.new.rows_seen ≡ self.old.rows_seen }
        ensures read { self.new.rows_fed ≡ self.old.rows_fed }
        ensures changes { self.new.has_changes ≡ self.old.has_changes }
    {
        self.fed.begin_chapter();
    }

    /// Looks at the new rows, none of which is forgotten yet. Notes whether a dispenser gets a
    /// notice of one.
    pub fn look(&mut self, book: &SiteBook)
        requires { HasSeen self.old.rows_seen book.now }
        ensures noted { HasChange self.old book.now → self.new.has_changes ≡ true }
        ensures all { self.new.rows_seen ≡ length book.now.rows }
        ensures read { self.new.rows_fed ≡ self.old.rows_fed }
        ensures fed { self.new.fed ≡ self.old.fed }
        ensures tally { self.new.tally ≡ self.old.tally }
    {
        let first = self.rows_seen;
        self.rows_seen = book.len();
        for place in first..self.rows_seen {
            if self.has_changes && !self.watches_releases {
                return;
            }
            self.look_at(book, place);
        }
    }

    /// Looks at the row of this place, if it is in memory.
    fn look_at(&mut self, book: &SiteBook, place: u64)
        ensures had { self.old.has_changes ≡ true → self.new.has_changes ≡ true }
        ensures seen { self.new.rows_seen ≡ self.old.rows_seen }
        ensures read { self.new.rows_fed ≡ self.old.rows_fed }
        ensures fed { self.new.fed ≡ self.old.fed }
        ensures tally { self.new.tally ≡ self.old.tally }
        ensures noted { book.now.forgotten ≤ place → IfSome (slice_get book.now.rows place)
            (λ row. is_changing row ≡ true → self.new.has_changes ≡ true) }
    {
        if let Some(row) = book.row(place) {
            self.note(&row);
        }
    }

    /// Notes a new row.
    fn note(&mut self, row: &Row)
        ensures changes { self.new.has_changes ≡ (self.old.has_changes || is_changing row.now) }
        ensures seen { self.new.rows_seen ≡ self.old.rows_seen }
        ensures read { self.new.rows_fed ≡ self.old.rows_fed }
        ensures fed { self.new.fed ≡ self.old.fed }
        ensures tally { self.new.tally ≡ self.old.tally }
    {
        if is_changing(row) {
            self.has_changes = true;
            if let Some(p) = point_released(&row.event) {
                self.released.insert(p);
            }
        }
    }

    /// Returns the points that were released since the last call.
    pub fn take_released(&mut self) -> PointSet
        ensures changes { self.new.has_changes ≡ self.old.has_changes }
        ensures seen { self.new.rows_seen ≡ self.old.rows_seen }
        ensures read { self.new.rows_fed ≡ self.old.rows_fed }
        ensures fed { self.new.fed ≡ self.old.fed }
        ensures tally { self.new.tally ≡ self.old.tally }
    {
        let released = self.released;
        self.released = PointSet::new();
        released
    }

    /// Was there a row of which a dispenser gets a notice, since the last call?
    pub fn take(&mut self) -> bool
        ensures had { result ≡ self.old.has_changes }
        ensures none { self.new.has_changes ≡ false }
        ensures seen { self.new.rows_seen ≡ self.old.rows_seen }
        ensures read { self.new.rows_fed ≡ self.old.rows_fed }
        ensures fed { self.new.fed ≡ self.old.fed }
        ensures tally { self.new.tally ≡ self.old.tally }
    {
        let had_changes = self.has_changes;
        self.has_changes = false;
        had_changes
    }
}

/// The point that an event releases, if it does.
fn point_released(event: &Event) -> Option<FpNo> {
    match event {
        Event::Release(p, _) => Some(*p),
        Event::Prepay(p, _) => Some(*p),
        Event::TestRelease(p) => Some(*p),
        _ => None,
    }
}
